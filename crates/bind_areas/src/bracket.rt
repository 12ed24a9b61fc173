ghost use Rattle.std.specs.Prelude.{◌≡◌, ◌<◌, length, IfOk};
ghost use Rattle.cube_space.specs.Layout.{axes};
ghost use Rattle.rule_model.specs.Conditions.{IsReference};
ghost use Rattle.bind_areas.specs.Meaning.{Answers};
ghost use Rattle.bind_areas.specs.Areas.{element_put, arg_at, args_at, bracket_of};

use crate::cause::BindCause;
use crate::entry::{entry_for, simple_places};
use cube_space::{Space, axis, axis_count};
use dim_core::Dimension;
use lists::ListOf;
use rule_laws::{Arg, ElementMap, Reference};
use rule_tree::SimpleText;
use std::alloc::{AllocError, Global};

// The element that a bracket puts into a dimension.
fn element_put(
    dimension: &Dimension,
    simples: &[SimpleText],
    places: &[u32],
    place: u32,
) -> Option<u32>
    ensures { result ≡ element_put simples.now places.now place dimension.now }
{
    let index = entry_for(places, place)?;
    let simple = simples.get(index)?;
    dimension.index_of(&simple.element)
}

// The argument of a bracket for the dimension at a place: the element that is put in, or the one that the cell has.
fn arg_at(dimension: &Dimension, simples: &[SimpleText], places: &[u32], place: u32) -> Arg
    ensures { result ≡ arg_at simples.now places.now place dimension.now }
{
    match element_put(dimension, simples, places, place) {
        Some(element) => Arg::Fixed(element),
        None => Arg::Moved {
            from: place,
            to: ElementMap::identity(dimension.len()),
        },
    }
}

// The arguments for all dimensions of the cube.
fn args_at(
    alloc: Global,
    space: &Space,
    cube: u32,
    simples: &[SimpleText],
    places: &[u32],
) -> Result<ListOf<Arg>, AllocError>
    requires { cube < length space.now.cubes }
    ensures { IfOk result (λ args. args ≡ args_at simples.now places.now (axes space.now cube)) }
{
    let count = axis_count(space, cube);
    let mut args = Vec::with_capacity(alloc, count as usize)?;
    for place in 0..count {
        let dimension = axis(space, cube, place);
        args.push(arg_at(dimension, simples, places, place))?;
    }
    Ok(ListOf::new(args))
}

/// The cell that a bracket names: the cell at hand with these elements put in. It has the faults of an area with one
/// element an entry.
#[tactic(auto, unfolding(crate::specs::Areas::bracket_of))]
pub fn bind_bracket(
    alloc: Global,
    space: &Space,
    cube: u32,
    simples: &[SimpleText],
) -> Result<Reference, BindCause>
    requires { cube < length space.now.cubes }
    ensures meant { Answers (bracket_of space.now cube simples.now) result }
    ensures valid { IfOk result (IsReference space.now cube) }
{
    let places = simple_places(alloc, space, cube, simples)?;
    let args = args_at(alloc, space, cube, simples, places.as_slice())?;
    Ok(Reference { cube, args })
}
