ghost use Rattle.std.specs.Prelude.{◌≡◌, None, Some, slice_get, IfOk, IsTrue};
ghost use Rattle.rule_laws.specs.declared.reference.Arg.TheVariants.{Moved};
ghost use Rattle.feed_turn.specs.Turning.{source_set, source_area};
ghost use Rattle.feed_turn.specs.Views.{turn_of, IsTurn, IsMoved};
ghost use Rattle.feed_turn.specs.Known.{AreTurns};

use crate::area::{area_leaves, has_all};
use crate::back::is_shared;
use crate::named::named_set;
use crate::turn_view::TurnView;
use crate::turns::{Known, Moving, Turns, recalled, remember};
use cube_space::{axis, axis_count};
use lists::ListOf;
use rule_laws::{Arg, ElementMap};
use rule_model::Area;
use std::alloc::{AllocError, Global};

// Whether it is known at once that from all elements of a dimension an argument names the same ones.
fn keeps_all(view: TurnView, dim: u32, place: u32, to: &ElementMap) -> bool
    requires view { IsTurn view }
    requires moved { IsMoved view dim place to.now }
    ensures { IsTrue result → source_set (turn_of view.entry) place (Moved dim to.now) ≡ None }
{
    let _space = view.model.space();
    if !to.is_identity() {
        return false;
    }
    if !is_shared(view, dim, place) {
        return false;
    }
    has_all(view.model, view.cube, view.area, dim)
}

// The set of a feeder's area in the dimension which an argument names elements of, from those of a dimension.
fn moved_set(
    alloc: Global,
    view: TurnView,
    dim: u32,
    place: u32,
    to: &ElementMap,
) -> Result<Option<ListOf<u32>>, AllocError>
    requires view { IsTurn view }
    requires moved { IsMoved view dim place to.now }
    ensures { IfOk result (λ set. set ≡ source_set (turn_of view.entry) place (Moved dim to.now)) }
{
    let leaves = area_leaves(alloc, view.model, view.cube, view.area, dim)?;
    let dimension = axis(view.model.space(), view.reference.cube, place);
    named_set(alloc, dimension, to, &leaves)
}

// The same, which isn't worked out again where the area has all elements of the dimension.
fn known_set<'a>(
    alloc: Global,
    view: TurnView<'a>,
    dim: u32,
    place: u32,
    to: &'a ElementMap,
    turns: &mut Turns<'a>,
) -> Result<Option<ListOf<u32>>, AllocError>
    requires view { IsTurn view }
    requires moved { IsMoved view dim place to.now }
    requires turns { AreTurns view.model.now view.cube turns.old }
    ensures set { IfOk result (λ set. set ≡ source_set (turn_of view.entry) place (Moved dim to.now)) }
    ensures turns { AreTurns view.entry.model.now view.entry.cube turns.new }
{
    if !has_all(view.model, view.cube, view.area, dim) {
        return moved_set(alloc, view, dim, place, to);
    }
    let moving = Moving {
        cube: view.reference.cube,
        dim,
        place,
        to,
    };
    if let Some(known) = recalled(&turns.sets, moving) {
        return copied(alloc, &turns.sets[known].found);
    }
    let set = moved_set(alloc, view, dim, place, to)?;
    let found = copied(alloc, &set)?;
    remember(&mut turns.sets, Known { moving, found });
    Ok(set)
}

fn copied(alloc: Global, set: &Option<ListOf<u32>>) -> Result<Option<ListOf<u32>>, AllocError>
    ensures { IfOk result (λ same. same ≡ set.now) }
{
    match set {
        Some(listed) => {
            let same = listed.as_slice().to_vec(alloc)?;
            Ok(Some(ListOf::new(same)))
        }
        None => Ok(None),
    }
}

// The set of a feeder's area in the dimension which the argument at this place names elements of: what it names from
// the leaves of the area.
fn source_set<'a>(
    alloc: Global,
    view: TurnView<'a>,
    place: u32,
    arg: &'a Arg,
    turns: &mut Turns<'a>,
) -> Result<Option<ListOf<u32>>, AllocError>
    requires view { IsTurn view }
    requires arg { slice_get view.reference.now.args place ≡ Some arg.now }
    requires turns { AreTurns view.model.now view.cube turns.old }
    ensures set { IfOk result (λ set. set ≡ source_set (turn_of view.entry) place arg.now) }
    ensures turns { AreTurns view.entry.model.now view.entry.cube turns.new }
{
    match arg {
        Arg::Fixed(target) => {
            let listed = vec![in alloc; *target]?;
            Ok(Some(ListOf::new(listed)))
        }
        Arg::Moved { from, to } => {
            if keeps_all(view, *from, place, to) {
                return Ok(None);
            }
            known_set(alloc, view, *from, place, to, turns)
        }
    }
}

/// The area of a feeder from all that the reference names.
#[tactic(auto, unfolding(crate::specs::Turning::source_area))]
pub fn source_area<'a>(
    alloc: Global,
    view: TurnView<'a>,
    turns: &mut Turns<'a>,
) -> Result<Area, AllocError>
    requires view { IsTurn view }
    requires turns { AreTurns view.model.now view.cube turns.old }
    ensures area { IfOk result (λ area. area ≡ source_area (turn_of view.entry)) }
    ensures turns { AreTurns view.entry.model.now view.entry.cube turns.new }
{
    let args = view.reference.args.as_slice();
    let mut sets = Vec::new(alloc);
    'each: for place in 0..axis_count(view.model.space(), view.reference.cube) {
        let set = source_set(alloc, view, place, &args[place as usize], turns)?;
        sets.push(set)?;
    }
    Ok(Area {
        sets: ListOf::new(sets),
    })
}
