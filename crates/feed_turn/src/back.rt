ghost use Rattle.std.specs.Prelude.{◌≡◌, Some, length, slice_get, option_map, IfOk};
ghost use Rattle.feed_turn.specs.Turning.{is_shared, keeps_each, is_kept, inverse_at, map_back, way_back, first_way};
ghost use Rattle.feed_turn.specs.Views.{turn_of, IsTurn, IsMoved};
ghost use Rattle.feed_turn.specs.Known.{AreTurns};

use crate::area::{area_leaves, has_all};
use crate::axes::{number_at, weights};
use crate::inverse::inverse;
use crate::shift::{goes, short_form};
use crate::turn_view::TurnView;
use crate::turns::{Known, Moving, Turns, recalled, remember};
use cube_space::{axis, axis_count};
use rule_laws::{Arg, ElementMap};
use std::alloc::{AllocError, Global};

/// Whether the dimension at a place of the statement's cube is the one at a place of the reference's cube.
pub fn is_shared(view: TurnView, dim: u32, place: u32) -> bool
    requires { IsTurn view }
    ensures { result ≡ is_shared (turn_of view.entry) dim place }
{
    let space = view.model.space();
    number_at(space, view.cube, dim) == number_at(space, view.reference.cube, place)
}

// Whether a map of so many elements sends each to itself.
fn keeps_each(to: &ElementMap, size: u32) -> bool
    requires { size ≡ length to.now }
    ensures { result ≡ keeps_each to.now }
{
    if to.is_identity() {
        return true;
    }
    'each: for element in 0..size {
        if !goes(to, element as usize, Some(element)) {
            return false;
        }
    }
    true
}

// Whether elements of a dimension that both cubes have are kept.
fn is_kept(view: TurnView, dim: u32, place: u32, to: &ElementMap) -> bool
    requires view { IsTurn view }
    requires moved { IsMoved view dim place to.now }
    ensures { result ≡ is_kept (turn_of view.entry) dim place to.now }
{
    if !is_shared(view, dim, place) {
        return false;
    }
    keeps_each(to, axis(view.model.space(), view.cube, dim).len())
}

// The map back from the dimension that a map goes to.
fn inverse_at(
    alloc: Global,
    view: TurnView,
    dim: u32,
    place: u32,
    to: &ElementMap,
) -> Result<Option<Vec<Option<u32>>>, AllocError>
    requires view { IsTurn view }
    requires moved { IsMoved view dim place to.now }
    ensures { IfOk result (λ found. option_map (λ back. back.items) found
        ≡ inverse_at (turn_of view.entry) dim place to.now) }
{
    let leaves = area_leaves(alloc, view.model, view.cube, view.area, dim)?;
    let dimension = axis(view.model.space(), view.reference.cube, place);
    let table = weights(view.model, view.reference.cube, place);
    inverse(alloc, dimension, table, to, &leaves)
}

// The same map where elements are kept, else its inverse.
#[tactic(auto, unfolding(crate::specs::Turning::map_back))]
fn map_back(
    alloc: Global,
    view: TurnView,
    dim: u32,
    place: u32,
    to: &ElementMap,
) -> Result<Option<ElementMap>, AllocError>
    requires view { IsTurn view }
    requires moved { IsMoved view dim place to.now }
    ensures { IfOk result (λ found. found ≡ map_back (turn_of view.entry) dim place to.now) }
{
    if is_kept(view, dim, place, to) {
        let kept = to.share()?;
        return Ok(Some(kept));
    }
    match inverse_at(alloc, view, dim, place, to)? {
        Some(back) => {
            let short = short_form(alloc, is_shared(view, dim, place), back)?;
            Ok(Some(short))
        }
        None => Ok(None),
    }
}

// The same, which isn't worked out again where the area has all elements of the dimension.
fn known_back<'a>(
    alloc: Global,
    view: TurnView<'a>,
    dim: u32,
    place: u32,
    to: &'a ElementMap,
    turns: &mut Turns<'a>,
) -> Result<Option<ElementMap>, AllocError>
    requires view { IsTurn view }
    requires moved { IsMoved view dim place to.now }
    requires turns { AreTurns view.model.now view.cube turns.old }
    ensures back { IfOk result (λ found. found ≡ map_back (turn_of view.entry) dim place to.now) }
    ensures turns { AreTurns view.entry.model.now view.entry.cube turns.new }
{
    if !has_all(view.model, view.cube, view.area, dim) {
        return map_back(alloc, view, dim, place, to);
    }
    let moving = Moving {
        cube: view.reference.cube,
        dim,
        place,
        to,
    };
    if let Some(known) = recalled(&turns.backs, moving) {
        return shared(&turns.backs[known].found);
    }
    let back = map_back(alloc, view, dim, place, to)?;
    let found = shared(&back)?;
    remember(&mut turns.backs, Known { moving, found });
    Ok(back)
}

fn shared(map: &Option<ElementMap>) -> Result<Option<ElementMap>, AllocError>
    ensures { IfOk result (λ same. same ≡ map.now) }
{
    match map {
        Some(map) => {
            let same = map.share()?;
            Ok(Some(same))
        }
        None => Ok(None),
    }
}

// The way back to a dimension by the argument at a place, if it follows that dimension.
fn way_back<'a>(
    alloc: Global,
    view: TurnView<'a>,
    dim: u32,
    place: u32,
    arg: &'a Arg,
    turns: &mut Turns<'a>,
) -> Result<Option<Arg>, AllocError>
    requires view { IsTurn view }
    requires arg { slice_get view.reference.now.args place ≡ Some arg.now }
    requires turns { AreTurns view.model.now view.cube turns.old }
    ensures way { IfOk result (λ found. found ≡ way_back (turn_of view.entry) dim place arg.now) }
    ensures turns { AreTurns view.entry.model.now view.entry.cube turns.new }
{
    match arg {
        Arg::Moved { from, to } if *from == dim => {
            match known_back(alloc, view, dim, place, to, turns)? {
                Some(to) => Ok(Some(Arg::Moved { from: place, to })),
                None => Ok(None),
            }
        }
        _ => Ok(None),
    }
}

/// The way back to a dimension by the first argument that has one.
pub fn first_way<'a>(
    alloc: Global,
    view: TurnView<'a>,
    dim: u32,
    turns: &mut Turns<'a>,
) -> Result<Option<Arg>, AllocError>
    requires view { IsTurn view }
    requires turns { AreTurns view.model.now view.cube turns.old }
    ensures way { IfOk result (λ found. found
        ≡ first_way (turn_of view.entry) dim 0 view.entry.reference.now.args) }
    ensures turns { AreTurns view.entry.model.now view.entry.cube turns.new }
{
    let args = view.reference.args.as_slice();
    'each: for place in 0..axis_count(view.model.space(), view.reference.cube) {
        let way = way_back(alloc, view, dim, place, &args[place as usize], turns)?;
        if way.is_some() {
            return Ok(way);
        }
    }
    Ok(None)
}
