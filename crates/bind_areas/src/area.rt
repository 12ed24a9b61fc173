ghost use Rattle.std.specs.Prelude.{◌≡◌, ◌<◌, length, filter_map, IfOk, option_map};
ghost use Rattle.cube_space.specs.Layout.{axes};
ghost use Rattle.dim_core.specs.Outline.{index_of};
ghost use Rattle.rule_model.specs.Conditions.{IsArea};
ghost use Rattle.bind_areas.specs.Meaning.{Answers};
ghost use Rattle.bind_areas.specs.Areas.{elements_called, set_at, sets_at, area_of};

use crate::cause::BindCause;
use crate::entry::{entry_for, entry_places};
use cube_space::{Space, axis, axis_count};
use dim_core::Dimension;
use dim_name::Name;
use lists::ListOf;
use rule_model::Area;
use rule_tree::EntryText;
use std::alloc::{AllocError, Global};

// The elements of these names, in the order of the names.
fn indices(alloc: Global, dimension: &Dimension, names: &[Name]) -> Result<Vec<u32>, AllocError>
    ensures { IfOk result (λ found. found.items ≡ filter_map (index_of dimension.now) names.now) }
{
    names
        .iter()
        .filter_map(|name| dimension.index_of(name))
        .collect(alloc)
}

// The elements of these names, rising.
fn elements_called(
    alloc: Global,
    dimension: &Dimension,
    names: &[Name],
) -> Result<ListOf<u32>, AllocError>
    ensures { IfOk result (λ elements. elements ≡ elements_called dimension.now names.now) }
{
    let mut elements = indices(alloc, dimension, names)?;
    elements.sort()?;
    elements.dedup();
    Ok(ListOf::new(elements))
}

// The set of an area in the dimension at a place, by the entries and the places of the dimensions that they belong to.
fn set_at(
    alloc: Global,
    dimension: &Dimension,
    entries: &[EntryText],
    places: &[u32],
    place: u32,
) -> Result<Option<ListOf<u32>>, AllocError>
    ensures { IfOk result (λ set. set ≡ set_at entries.now places.now place dimension.now) }
{
    match entry_for(places, place) {
        None => Ok(None),
        Some(index) => match entries.get(index) {
            None => Ok(None),
            Some(entry) => {
                let elements = elements_called(alloc, dimension, entry.elements.as_slice())?;
                Ok(Some(elements))
            }
        },
    }
}

// The sets of an area in all dimensions of its cube.
fn sets_at(
    alloc: Global,
    space: &Space,
    cube: u32,
    entries: &[EntryText],
    places: &[u32],
) -> Result<ListOf<Option<ListOf<u32>>>, AllocError>
    requires { cube < length space.now.cubes }
    ensures { IfOk result (λ sets. sets ≡ sets_at entries.now places.now (axes space.now cube)) }
{
    let mut sets = Vec::new(alloc);
    for place in 0..axis_count(space, cube) {
        let dimension = axis(space, cube, place);
        sets.push(set_at(alloc, dimension, entries, places, place)?)?;
    }
    Ok(ListOf::new(sets))
}

/// The cells of a cube that an area speaks of, or its first fault: an entry belongs to no dimension of the cube
/// (UnknownName) or to several (Ambiguous), or one before it belongs to the same (WrongCount).
#[tactic(auto, unfolding(crate::specs::Areas::area_of))]
pub fn bind_area(
    alloc: Global,
    space: &Space,
    cube: u32,
    entries: &[EntryText],
) -> Result<Area, BindCause>
    requires { cube < length space.now.cubes }
    ensures meant { Answers (area_of space.now cube entries.now) result }
    ensures valid { IfOk result (IsArea space.now cube) }
{
    let places = entry_places(alloc, space, cube, entries)?;
    let sets = sets_at(alloc, space, cube, entries, places.as_slice())?;
    Ok(Area { sets })
}
