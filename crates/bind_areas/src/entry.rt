ghost use Rattle.std.specs.Prelude.{◌≡◌, ◌==◌, ◌<◌, Option, [], ◌∷◌, ◌++◌, length, map, position, slice_get};
ghost use Rattle.std.specs.Prelude.{IfOk, OnOk, is_some, if◌then◌else◌};
ghost use Rattle.std.specs.List.{list_any, list_all};
ghost use Rattle.cube_space.specs.Layout.{axes};
ghost use Rattle.bind_areas.specs.Meaning.{Answers};
ghost use Rattle.bind_areas.specs.Areas.{is_called, has_all, owns, places_where, place_of, free_place, placed, alone};

use crate::cause::BindCause;
use cube_space::{Space, axis, axis_count};
use dim_core::Dimension;
use dim_name::Name;
use lists::ListOf;
use rule_tree::{EntryText, SimpleText};
use std::alloc::{AllocError, Global};
use std::slice;

// Whether a dimension has this name, where one is given.
fn is_called(dimension: &Dimension, dim: &Option<Name>) -> bool
    ensures { result ≡ is_called dim.now dimension.now }
{
    match dim {
        None => true,
        Some(name) => name == dimension.name(),
    }
}

// Whether a dimension has an element of each of these names.
fn has_all(dimension: &Dimension, names: &[Name]) -> bool
    ensures { result ≡ has_all names.now dimension.now }
{
    names.iter().all(|name| dimension.index_of(name).is_some())
}

// Whether elements, perhaps with their dimension, can belong to a dimension.
fn owns(dimension: &Dimension, dim: &Option<Name>, names: &[Name]) -> bool
    ensures { result ≡ owns (record { dim = dim.now; elements = names.now }) dimension.now }
{
    is_called(dimension, dim) && has_all(dimension, names)
}

// Adds a place, if it is one.
fn push_if(places: &mut Vec<u32>, place: u32, is_one: bool) -> Result<(), AllocError>
    ensures { OnOk result
        (places.new.items ≡ (if is_one then places.old.items ++ place ∷ [] else places.old.items)) }
{
    if is_one {
        places.push(place)?;
    }
    Ok(())
}

// The places of the dimensions of a cube that they can belong to.
fn owners(
    alloc: Global,
    space: &Space,
    cube: u32,
    dim: &Option<Name>,
    names: &[Name],
) -> Result<Vec<u32>, AllocError>
    requires { cube < length space.now.cubes }
    ensures { IfOk result (λ places. places.items
        ≡ places_where (owns (record { dim = dim.now; elements = names.now })) 0 (axes space.now cube)) }
{
    let mut places = Vec::new(alloc);
    for place in 0..axis_count(space, cube) {
        let is_owner = owns(axis(space, cube, place), dim, names);
        push_if(&mut places, place, is_owner)?;
    }
    Ok(places)
}

/// The place of the one dimension of a cube that has this name, where one is given, and elements of these names.
pub fn place_of(
    alloc: Global,
    space: &Space,
    cube: u32,
    dim: &Option<Name>,
    names: &[Name],
) -> Result<u32, BindCause>
    requires { cube < length space.now.cubes }
    ensures meant { Answers (place_of (axes space.now cube) (record { dim = dim.now; elements = names.now })) result }
    ensures within { IfOk result (λ place. place < length (axes space.now cube)) }
{
    let places = owners(alloc, space, cube, dim, names)?;
    match places.as_slice() {
        [] => Err(BindCause::UnknownName),
        [place] => Ok(*place),
        _ => Err(BindCause::Ambiguous),
    }
}

// Whether a place is among these.
fn is_taken(taken: &[u32], place: u32) -> bool
    ensures { result ≡ list_any (λ other. other == place) taken.now }
{
    taken.iter().any(|other| *other == place)
}

// The same, where entries before belong to dimensions at these places.
fn free_place(
    alloc: Global,
    space: &Space,
    cube: u32,
    dim: &Option<Name>,
    names: &[Name],
    taken: &[u32],
) -> Result<u32, BindCause>
    requires { cube < length space.now.cubes }
    ensures { Answers
        (free_place (axes space.now cube) taken.now (record { dim = dim.now; elements = names.now })) result }
{
    let place = place_of(alloc, space, cube, dim, names)?;
    if is_taken(taken, place) {
        Err(BindCause::WrongCount)
    } else {
        Ok(place)
    }
}

/// The places of the dimensions that the entries of an area belong to, in their order.
pub fn entry_places(
    alloc: Global,
    space: &Space,
    cube: u32,
    entries: &[EntryText],
) -> Result<ListOf<u32>, BindCause>
    requires { cube < length space.now.cubes }
    ensures { Answers (placed (axes space.now cube) [] entries.now) result }
{
    let mut places = Vec::new(alloc);
    for entry in entries {
        let names = entry.elements.as_slice();
        let place = free_place(alloc, space, cube, &entry.dim, names, &places)?;
        places.push(place)?;
    }
    Ok(ListOf::new(places))
}

/// The places of the dimensions that the elements of a bracket belong to, in their order.
pub fn simple_places(
    alloc: Global,
    space: &Space,
    cube: u32,
    simples: &[SimpleText],
) -> Result<ListOf<u32>, BindCause>
    requires { cube < length space.now.cubes }
    ensures { Answers (placed (axes space.now cube) [] (map alone simples.now)) result }
{
    let mut places = Vec::new(alloc);
    for simple in simples {
        let names = slice::from_ref(&simple.element);
        let place = free_place(alloc, space, cube, &simple.dim, names, &places)?;
        places.push(place)?;
    }
    Ok(ListOf::new(places))
}

/// Which of the entries that belong to dimensions at these places belongs to this one.
pub fn entry_for(places: &[u32], place: u32) -> Option<usize>
    ensures { result ≡ position (λ other. other == place) places.now }
{
    places.iter().position(|other| *other == place)
}
