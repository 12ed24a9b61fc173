ghost use Rattle.std.specs.Prelude.{◌≡◌, ◌<◌, ◌≤◌, ◌^◌, true, false, All, drop, length, IfOk, IfErr, OnOk};
ghost use Rattle.least_ranks.specs.declared.arrow.Arrow.{Arrow};
ghost use Rattle.least_ranks.specs.Graph.{IsArrow};
ghost use Rattle.least_ranks.specs.Faults.{IsFault};
ghost use Rattle.least_ranks.specs.Inside.Trails.{state_of, work_left, EndsWith, IsIdle};
ghost use Rattle.least_ranks.specs.Inside.Sound.{IsSound, IsLater, AreRanked, AreSmall, LeadsTo};
ghost use Rattle.least_ranks.specs.Inside.Bounds.{IsBound, IsLowest, IsLowestOfSome, IsOver, IsOverArrow, IsInside};

use crate::cycle::closed_walk;
use crate::state::State;
use crate::walk::Walk;
use crate::{Arrow, Graph, RankFault, Step};
use std::alloc::Global;

/// Gives the nodes of the last part, which begins at this place, their rank.
pub fn rank_part<G: Graph>(
    alloc: Global,
    graph: &G,
    start: u32,
    walk: &mut Walk,
) -> Result<(), RankFault>
    requires sound { IsSound (G.arrows graph.now) walk.old }
    requires last { EndsWith walk.old.parts start }
    requires idle { IsIdle walk.old }
    ensures sound { OnOk result (IsSound (G.arrows graph.now) walk.new) }
    ensures less { OnOk result (work_left walk.new < work_left walk.old) }
    ensures later { OnOk result (IsLater walk.old walk.new) }
    ensures fault { IfErr result (IsFault (G.arrows graph.now)) }
{
    let rank = rank_over(alloc, graph, walk.part(start), walk)?;
    walk.settle(start, rank);
    Ok(())
}

// The least rank that lets these nodes have one rank.
fn rank_over<G: Graph>(
    alloc: Global,
    graph: &G,
    nodes: &[u32],
    walk: &Walk,
) -> Result<u32, RankFault>
    requires small { AreSmall (G.arrows graph.now) walk.now }
    requires ranked { AreRanked (G.arrows graph.now) walk.now.states }
    requires whole { length walk.now.states ≡ (G.arrows graph.now).nodes }
    requires inside { All (IsInside (G.arrows graph.now) walk.now) nodes.now }
    ensures over { IfOk result (λ rank. All (IsOver (G.arrows graph.now) walk.now rank) nodes.now) }
    ensures lowest { IfOk result (λ rank. IsLowestOfSome (G.arrows graph.now) nodes.now rank) }
    ensures small { IfOk result (IsBound (G.arrows graph.now) walk.now) }
    ensures fault { IfErr result (IsFault (G.arrows graph.now)) }
{
    let mut rank = 0;
    for node in nodes {
        rank = rank.max(rank_over_node(alloc, graph, *node, walk)?);
    }
    Ok(rank)
}

// The least rank that lets a node have it.
fn rank_over_node<G: Graph>(
    alloc: Global,
    graph: &G,
    node: u32,
    walk: &Walk,
) -> Result<u32, RankFault>
    requires small { AreSmall (G.arrows graph.now) walk.now }
    requires ranked { AreRanked (G.arrows graph.now) walk.now.states }
    requires whole { length walk.now.states ≡ (G.arrows graph.now).nodes }
    requires inside { IsInside (G.arrows graph.now) walk.now node }
    ensures over { IfOk result (λ rank. IsOver (G.arrows graph.now) walk.now rank node) }
    ensures lowest { IfOk result (IsLowest (G.arrows graph.now) node) }
    ensures small { IfOk result (IsBound (G.arrows graph.now) walk.now) }
    ensures fault { IfErr result (IsFault (G.arrows graph.now)) }
{
    let mut rank = 0;
    for slot in 0..graph.slot_count(node) {
        rank = rank.max(rank_over_slot(alloc, graph, Step { node, slot }, walk)?);
    }
    Ok(rank)
}

// The least rank that the arrow in a slot lets its node have.
fn rank_over_slot<G: Graph>(
    alloc: Global,
    graph: &G,
    step: Step,
    walk: &Walk,
) -> Result<u32, RankFault>
    requires small { AreSmall (G.arrows graph.now) walk.now }
    requires ranked { AreRanked (G.arrows graph.now) walk.now.states }
    requires whole { length walk.now.states ≡ (G.arrows graph.now).nodes }
    requires inside { IsInside (G.arrows graph.now) walk.now step.node }
    requires slot { step.slot < (G.arrows graph.now).slots step.node }
    ensures over { IfOk result (λ rank. (arrow : Arrow)
        → IsArrow (G.arrows graph.now) step.node step.slot arrow
        → IsOverArrow rank arrow (state_of walk.now arrow.to)) }
    ensures lowest { IfOk result (IsLowest (G.arrows graph.now) step.node) }
    ensures small { IfOk result (IsBound (G.arrows graph.now) walk.now) }
    ensures fault { IfErr result (IsFault (G.arrows graph.now)) }
{
    match graph.arrow(step.node, step.slot) {
        Some(arrow) => rank_over_arrow(alloc, graph, step, arrow, walk),
        None => Ok(0),
    }
}

// The least rank that an arrow lets its node have.
fn rank_over_arrow<G: Graph>(
    alloc: Global,
    graph: &G,
    step: Step,
    arrow: Arrow,
    walk: &Walk,
) -> Result<u32, RankFault>
    requires small { AreSmall (G.arrows graph.now) walk.now }
    requires ranked { AreRanked (G.arrows graph.now) walk.now.states }
    requires whole { length walk.now.states ≡ (G.arrows graph.now).nodes }
    requires inside { IsInside (G.arrows graph.now) walk.now step.node }
    requires there { IsArrow (G.arrows graph.now) step.node step.slot arrow }
    requires within { arrow.to < (G.arrows graph.now).nodes }
    ensures over { IfOk result (λ rank. IsOverArrow rank arrow (state_of walk.now arrow.to)) }
    ensures lowest { IfOk result (IsLowest (G.arrows graph.now) step.node) }
    ensures small { IfOk result (IsBound (G.arrows graph.now) walk.now) }
    ensures fault { IfErr result (IsFault (G.arrows graph.now)) }
{
    match walk.state(arrow.to) {
        State::Ranked(rank) => Ok(rank + u32::from(arrow.strict)),
        _ if arrow.strict => Err(RankFault::Cycle(closed_walk(alloc, graph, step, arrow.to)?)),
        _ => Ok(0),
    }
}
