ghost use Rattle.std.specs.Prelude.{◌≡◌, ◌<◌, length, IfOk, IfSome, option_and_then, slice_get};
ghost use Rattle.script_values.specs.Elements.{of_elements};
ghost use Rattle.load_cells.specs.Found.{AreElements, AreFound};
ghost use Rattle.load_cells.specs.Members.{elements_by_text, name_at};
ghost use Rattle.load_cells.specs.Names.{attribute_by_text, element_by_text};

use crate::below::is_below;
use crate::found::{FoundElements, FoundNames, dimension_by_text, element_by_text, name_in};
use cube_space::Space;
use dim_core::Dimension;
use lists::ListOf;
use script_values::LoadReason;
use std::alloc::{AllocError, Global};

/// How many elements the dimension of this name has.
pub(crate) fn element_count(
    alloc: Global,
    space: &Space,
    found: &mut FoundNames,
    dimension: &[u8],
) -> Result<Result<usize, LoadReason>, AllocError>
    requires { AreFound space.now found.old }
    ensures value { IfOk result (λ answer. answer
        ≡ of_elements (λ all. all.count) (elements_by_text space.now dimension.now)) }
    ensures found { AreFound space.now found.new }
{
    match dimension_by_text(alloc, space, &mut found.dimension, dimension)? {
        Some(dim) => Ok(Ok(space.dimension(dim).len() as usize)),
        None => Ok(Err(LoadReason::UnknownName)),
    }
}

/// The name of the element at a place, from 1.
fn name_at(
    alloc: Global,
    dimension: &Dimension,
    place: usize,
) -> Result<Option<ListOf<u8>>, AllocError>
    ensures { IfOk result (λ name. name ≡ name_at dimension.now place) }
{
    if place == 0 || place > dimension.len() as usize {
        return Ok(None);
    }
    let name = dimension.name_of((place - 1) as u32);
    Ok(Some(ListOf::new(Vec::from_slice(alloc, name.shown())?)))
}

/// The name of the element of a dimension at a place, from 1.
pub(crate) fn element_name(
    alloc: Global,
    space: &Space,
    found: &mut FoundNames,
    dimension: &[u8],
    place: usize,
) -> Result<Result<Option<ListOf<u8>>, LoadReason>, AllocError>
    requires { AreFound space.now found.old }
    ensures value { IfOk result (λ answer. answer
        ≡ of_elements (λ all. all.name place) (elements_by_text space.now dimension.now)) }
    ensures found { AreFound space.now found.new }
{
    match dimension_by_text(alloc, space, &mut found.dimension, dimension)? {
        Some(dim) => Ok(Ok(name_at(alloc, space.dimension(dim), place)?)),
        None => Ok(Err(LoadReason::UnknownName)),
    }
}

/// The element of a dimension that a text names.
fn element_in(
    alloc: Global,
    space: &Space,
    found: &mut Vec<FoundElements>,
    dim: u32,
    text: &[u8],
) -> Result<Option<u32>, AllocError>
    requires dim { dim < length space.now.dimensions }
    requires found { AreElements space.now.dimensions found.old.items }
    ensures value { IfOk result (λ element. element
        ≡ option_and_then (λ dimension. element_by_text dimension text.now) (slice_get space.now.dimensions dim)) }
    ensures found { AreElements space.now.dimensions found.new.items }
{
    let known = &mut found[dim as usize];
    element_by_text(alloc, space.dimension(dim), known, text)
}

/// The place of an element of a dimension, from 1.
pub(crate) fn element_place(
    alloc: Global,
    space: &Space,
    found: &mut FoundNames,
    dimension: &[u8],
    element: &[u8],
) -> Result<Result<Option<usize>, LoadReason>, AllocError>
    requires { AreFound space.now found.old }
    ensures value { IfOk result (λ answer. answer
        ≡ of_elements (λ all. all.place element.now) (elements_by_text space.now dimension.now)) }
    ensures found { AreFound space.now found.new }
{
    let Some(dim) = dimension_by_text(alloc, space, &mut found.dimension, dimension)? else {
        return Ok(Err(LoadReason::UnknownName));
    };
    match element_in(alloc, space, &mut found.elements, dim, element)? {
        Some(index) => Ok(Ok(Some(index as usize + 1))),
        None => Ok(Ok(None)),
    }
}

/// Whether an element of a dimension is a leaf.
pub(crate) fn is_leaf_element(
    alloc: Global,
    space: &Space,
    found: &mut FoundNames,
    dimension: &[u8],
    element: &[u8],
) -> Result<Result<Option<bool>, LoadReason>, AllocError>
    requires { AreFound space.now found.old }
    ensures value { IfOk result (λ answer. answer
        ≡ of_elements (λ all. all.is_leaf element.now) (elements_by_text space.now dimension.now)) }
    ensures found { AreFound space.now found.new }
{
    let Some(dim) = dimension_by_text(alloc, space, &mut found.dimension, dimension)? else {
        return Ok(Err(LoadReason::UnknownName));
    };
    match element_in(alloc, space, &mut found.elements, dim, element)? {
        Some(index) => Ok(Ok(Some(space.dimension(dim).is_leaf(index)))),
        None => Ok(Ok(None)),
    }
}

/// The text of the attribute of this name of an element.
fn attribute_by_text(
    alloc: Global,
    dimension: &Dimension,
    element: u32,
    text: &[u8],
) -> Result<ListOf<u8>, AllocError>
    ensures { IfOk result (λ given. given ≡ attribute_by_text dimension.now element text.now) }
{
    match name_in(alloc, text)? {
        Some(name) => {
            let given = dimension.attribute(element, &name);
            Ok(ListOf::new(Vec::from_slice(alloc, given)?))
        }
        None => Ok(ListOf::new(Vec::new(alloc))),
    }
}

/// The text of an attribute of an element of a dimension.
pub(crate) fn attribute(
    alloc: Global,
    space: &Space,
    found: &mut FoundNames,
    dimension: &[u8],
    element: &[u8],
    name: &[u8],
) -> Result<Result<Option<ListOf<u8>>, LoadReason>, AllocError>
    requires { AreFound space.now found.old }
    ensures value { IfOk result (λ answer. answer
        ≡ of_elements (λ all. all.attribute element.now name.now) (elements_by_text space.now dimension.now)) }
    ensures found { AreFound space.now found.new }
{
    let Some(dim) = dimension_by_text(alloc, space, &mut found.dimension, dimension)? else {
        return Ok(Err(LoadReason::UnknownName));
    };
    match element_in(alloc, space, &mut found.elements, dim, element)? {
        Some(index) => {
            let text = attribute_by_text(alloc, space.dimension(dim), index, name)?;
            Ok(Ok(Some(text)))
        }
        None => Ok(Ok(None)),
    }
}

/// Whether an element of a dimension lies below another one.
pub(crate) fn is_ancestor(
    alloc: Global,
    space: &Space,
    found: &mut FoundNames,
    dimension: &[u8],
    above: &[u8],
    element: &[u8],
) -> Result<Result<Option<bool>, LoadReason>, AllocError>
    requires { AreFound space.now found.old }
    ensures value { IfOk result (λ answer. answer
        ≡ of_elements (λ all. all.is_below above.now element.now) (elements_by_text space.now dimension.now)) }
    ensures found { AreFound space.now found.new }
{
    let Some(dim) = dimension_by_text(alloc, space, &mut found.dimension, dimension)? else {
        return Ok(Err(LoadReason::UnknownName));
    };
    let above = element_in(alloc, space, &mut found.elements, dim, above)?;
    let element = element_in(alloc, space, &mut found.elements, dim, element)?;
    let (Some(above), Some(element)) = (above, element) else {
        return Ok(Ok(None));
    };
    let below = is_below(alloc, space, &mut found.below, dim, above, element)?;
    Ok(Ok(Some(below)))
}
