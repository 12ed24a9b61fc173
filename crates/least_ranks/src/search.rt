ghost use Rattle.std.specs.Prelude.{◌≡◌, ◌<◌, ◌≤◌, ◌^◌, true, false, length, slice_index, IfOk, IfErr, OnOk};
ghost use Rattle.least_ranks.specs.Graph.{Fits, IsLeast};
ghost use Rattle.least_ranks.specs.Faults.{IsFault};
ghost use Rattle.least_ranks.specs.Inside.States.{is_new};
ghost use Rattle.least_ranks.specs.Inside.Trails.{state_of, work_left, EndsWith, IsTop};
ghost use Rattle.least_ranks.specs.Inside.Sound.{IsSound, IsLater, IsMet, IsSlotMet, HasGone, StaysAt, LeadsTo};

use crate::parts::rank_part;
use crate::state::State;
use crate::walk::Walk;
use crate::{Graph, RankFault};
use std::alloc::{AllocError, Global};

/// The least rank of each node, by its number, or a closed walk with a strict arrow, which shows that no ranks fit. It
/// asks for each slot at most four times, and takes some 30 bytes a node.
///
/// # Errors
///
/// [`RankFault::Cycle`] exactly where no ranks fit and memory suffices, [`RankFault::Memory`] when out of memory.
pub fn least_ranks<G: Graph>(alloc: Global, graph: &G) -> Result<Vec<u32>, RankFault>
    ensures fits { IfOk result (λ ranks. Fits (G.arrows graph.now) ranks.items) }
    ensures least { IfOk result (λ ranks. IsLeast (G.arrows graph.now) ranks.items) }
    ensures cycle { IfErr result (IsFault (G.arrows graph.now)) }
{
    let mut walk = Walk::new(alloc, graph.node_count())?;
    for node in 0..graph.node_count() {
        rank_from(alloc, graph, node, &mut walk)?;
    }
    Ok(walk.ranks(alloc)?)
}

// Gives a rank to a node and to all to which arrows lead from it.
fn rank_from<G: Graph>(
    alloc: Global,
    graph: &G,
    root: u32,
    walk: &mut Walk,
) -> Result<(), RankFault>
    requires root { root < (G.arrows graph.now).nodes }
    requires sound { IsSound (G.arrows graph.now) walk.old }
    requires idle { length walk.old.path ≡ 0 }
    ensures sound { OnOk result (IsSound (G.arrows graph.now) walk.new) }
    ensures idle { OnOk result (length walk.new.path ≡ 0) }
    ensures ranked { OnOk result (is_new (state_of walk.new root) ≡ false) }
    ensures later { OnOk result (IsLater walk.old walk.new) }
    ensures fault { IfErr result (IsFault (G.arrows graph.now)) }
{
    begin(graph, root, walk)?;
    'turns: while let Some(start) = walk.last_part() {
        turn(alloc, graph, start, walk)?;
    }
    Ok(())
}

// Comes to a node, unless it has come to it before.
fn begin<G: Graph>(graph: &G, root: u32, walk: &mut Walk) -> Result<(), AllocError>
    requires root { root < (G.arrows graph.now).nodes }
    requires sound { IsSound (G.arrows graph.now) walk.old }
    requires idle { length walk.old.path ≡ 0 }
    ensures sound { OnOk result (IsSound (G.arrows graph.now) walk.new) }
    ensures begun { OnOk result (is_new (state_of walk.new root) ≡ false) }
    ensures later { OnOk result (IsLater walk.old walk.new) }
{
    if let State::New = walk.state(root) {
        walk.enter(root)?;
    }
    Ok(())
}

// One turn of the walk: it passes slots of the last node that has some left, or gives the last part its rank.
fn turn<G: Graph>(alloc: Global, graph: &G, start: u32, walk: &mut Walk) -> Result<(), RankFault>
    requires sound { IsSound (G.arrows graph.now) walk.old }
    requires last { EndsWith walk.old.parts start }
    ensures sound { OnOk result (IsSound (G.arrows graph.now) walk.new) }
    ensures less { OnOk result (work_left walk.new < work_left walk.old) }
    ensures later { OnOk result (IsLater walk.old walk.new) }
    ensures fault { IfErr result (IsFault (G.arrows graph.now)) }
{
    match walk.top() {
        Some(place) => Ok(go_on(graph, place, walk)?),
        None => rank_part(alloc, graph, start, walk),
    }
}

// Passes slots of the node at this place, until one leads to a new node or none is left.
fn go_on<G: Graph>(graph: &G, place: u32, walk: &mut Walk) -> Result<(), AllocError>
    requires sound { IsSound (G.arrows graph.now) walk.old }
    requires top { IsTop walk.old place }
    ensures sound { OnOk result (IsSound (G.arrows graph.now) walk.new) }
    ensures less { OnOk result (work_left walk.new < work_left walk.old) }
    ensures later { OnOk result (IsLater walk.old walk.new) }
{
    let node = walk.node_at(place);
    for slot in walk.passed_at(place)..graph.slot_count(node) {
        let has_come = meet_slot(graph, place, node, slot, walk)?;
        walk.pass(place, slot + 1);
        if has_come {
            return Ok(());
        }
    }
    walk.leave();
    Ok(())
}

// Meets what the arrow in a slot of the node at this place leads to, and says whether it came to a new node.
fn meet_slot<G: Graph>(
    graph: &G,
    place: u32,
    node: u32,
    slot: u32,
    walk: &mut Walk,
) -> Result<bool, AllocError>
    requires sound { IsSound (G.arrows graph.now) walk.old }
    requires top { IsTop walk.old place }
    requires node { node ≡ slice_index walk.old.path place }
    requires slot { slot < (G.arrows graph.now).slots node }
    ensures sound { OnOk result (IsSound (G.arrows graph.now) walk.new) }
    ensures met { OnOk result (IsSlotMet (G.arrows graph.now) walk.new place slot) }
    ensures later { OnOk result (IsLater walk.old walk.new) }
    ensures stays { OnOk result (StaysAt walk.old walk.new place) }
    ensures went { IfOk result (HasGone walk.old walk.new place) }
{
    match graph.arrow(node, slot) {
        Some(arrow) => meet(graph, place, arrow.to, walk),
        None => Ok(false),
    }
}

// Meets a node to which an arrow leads from the node at this place.
fn meet<G: Graph>(graph: &G, place: u32, to: u32, walk: &mut Walk) -> Result<bool, AllocError>
    requires sound { IsSound (G.arrows graph.now) walk.old }
    requires top { IsTop walk.old place }
    requires to { to < (G.arrows graph.now).nodes }
    requires leads { LeadsTo (G.arrows graph.now) (slice_index walk.old.path place) to }
    ensures sound { OnOk result (IsSound (G.arrows graph.now) walk.new) }
    ensures met { OnOk result (IsMet walk.new.parts place (state_of walk.new to)) }
    ensures later { OnOk result (IsLater walk.old walk.new) }
    ensures stays { OnOk result (StaysAt walk.old walk.new place) }
    ensures went { IfOk result (HasGone walk.old walk.new place) }
{
    match walk.state(to) {
        State::New => {
            walk.enter(to)?;
            Ok(true)
        }
        State::Waiting(at) => {
            walk.join(at);
            Ok(false)
        }
        State::Ranked(_) => Ok(false),
    }
}
