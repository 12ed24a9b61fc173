ghost use Rattle.std.specs.Prelude.{◌≡◌, ◌<◌, length, IfOk};
ghost use Rattle.std.specs.List.{range_with_len};
ghost use Rattle.cube_space.specs.Layout.{axes};
ghost use Rattle.view_query.specs.Meaning.{Answers, each, known};
ghost use Rattle.view_query.specs.Binding.{place_named, elements_of_set, bound_set, bound_point};
ghost use Rattle.dim_core.specs.Outline.{index_of};

use crate::fault::ViewFault;
use crate::shape::Axis;
use cube_space::{Space, axis, axis_called};
use dim_core::Dimension;
use dim_name::Name;
use lists::ListOf;
use std::alloc::{AllocError, Global};
use user_text::SetText;

// The place of the dimension of a cube that has this name.
fn place_named(space: &Space, cube: u32, name: &Name) -> Result<u32, ViewFault>
    requires { cube < length space.now.cubes }
    ensures { Answers (place_named (axes space.now cube) name.now) result }
{
    match axis_called(space, cube, name) {
        Some(place) => Ok(place),
        None => Err(ViewFault::UnknownName),
    }
}

/// The places of the dimensions of these sets.
pub(crate) fn set_places(
    alloc: Global,
    space: &Space,
    cube: u32,
    sets: &[SetText],
) -> Result<ListOf<u32>, ViewFault>
    requires { cube < length space.now.cubes }
    ensures { Answers (each (λ set. place_named (axes space.now cube) set.dim) sets.now) result }
{
    let mut places = Vec::new(alloc);
    for set in sets {
        let place = place_named(space, cube, &set.dim)?;
        places.push(place)?;
    }
    Ok(ListOf::new(places))
}

/// The places of the dimensions of these points.
pub(crate) fn point_places(
    alloc: Global,
    space: &Space,
    cube: u32,
    points: &[(Name, Name)],
) -> Result<ListOf<u32>, ViewFault>
    requires { cube < length space.now.cubes }
    ensures { Answers (each (λ point. place_named (axes space.now cube) point.0) points.now) result }
{
    let mut places = Vec::new(alloc);
    for (dim, _) in points {
        let place = place_named(space, cube, dim)?;
        places.push(place)?;
    }
    Ok(ListOf::new(places))
}

// The element of a dimension that has this name.
fn element_named(dimension: &Dimension, name: &Name) -> Result<u32, ViewFault>
    ensures { Answers (known (index_of dimension.now name.now)) result }
{
    match dimension.index_of(name) {
        Some(element) => Ok(element),
        None => Err(ViewFault::UnknownName),
    }
}

// The elements of these names, in their order.
fn elements_named(
    alloc: Global,
    dimension: &Dimension,
    names: &[Name],
) -> Result<ListOf<u32>, ViewFault>
    ensures { Answers (each (λ name. known (index_of dimension.now name)) names.now) result }
{
    let mut elements = Vec::new(alloc);
    for name in names {
        let element = element_named(dimension, name)?;
        elements.push(element)?;
    }
    Ok(ListOf::new(elements))
}

fn all_elements(alloc: Global, dimension: &Dimension) -> Result<Vec<u32>, AllocError>
    ensures { IfOk result (λ elements. elements.items ≡ range_with_len 0 (length dimension.now.elements)) }
{
    let mut elements = Vec::with_capacity(alloc, dimension.len() as usize)?;
    for element in 0..dimension.len() {
        elements.push(element)?;
    }
    Ok(elements)
}

// The elements of a set: those that it lists, or all.
fn elements_of_set(
    alloc: Global,
    dimension: &Dimension,
    listed: &Option<ListOf<Name>>,
) -> Result<ListOf<u32>, ViewFault>
    ensures { Answers (elements_of_set dimension.now listed.now) result }
{
    match listed {
        None => Ok(ListOf::new(all_elements(alloc, dimension)?)),
        Some(names) => elements_named(alloc, dimension, names.as_slice()),
    }
}

fn bind_set(alloc: Global, space: &Space, cube: u32, set: &SetText) -> Result<Axis, ViewFault>
    requires { cube < length space.now.cubes }
    ensures { Answers (bound_set (axes space.now cube) set.now) result }
{
    let place = place_named(space, cube, &set.dim)?;
    let elements = elements_of_set(alloc, axis(space, cube, place), &set.elements)?;
    Ok(Axis { place, elements })
}

fn bind_point(space: &Space, cube: u32, dim: &Name, element: &Name) -> Result<(u32, u32), ViewFault>
    requires { cube < length space.now.cubes }
    ensures { Answers (bound_point (axes space.now cube) (dim.now, element.now)) result }
{
    let place = place_named(space, cube, dim)?;
    let element = element_named(axis(space, cube, place), element)?;
    Ok((place, element))
}

/// The axes of these sets.
pub(crate) fn bind_sets(
    alloc: Global,
    space: &Space,
    cube: u32,
    sets: &[SetText],
) -> Result<ListOf<Axis>, ViewFault>
    requires { cube < length space.now.cubes }
    ensures { Answers (each (bound_set (axes space.now cube)) sets.now) result }
{
    let mut axes = Vec::new(alloc);
    for set in sets {
        let axis = bind_set(alloc, space, cube, set)?;
        axes.push(axis)?;
    }
    Ok(ListOf::new(axes))
}

/// The places and the elements of these points.
pub(crate) fn bind_points(
    alloc: Global,
    space: &Space,
    cube: u32,
    points: &[(Name, Name)],
) -> Result<ListOf<(u32, u32)>, ViewFault>
    requires { cube < length space.now.cubes }
    ensures { Answers (each (bound_point (axes space.now cube)) points.now) result }
{
    let mut bound = Vec::new(alloc);
    for (dim, element) in points {
        let point = bind_point(space, cube, dim, element)?;
        bound.push(point)?;
    }
    Ok(ListOf::new(bound))
}
