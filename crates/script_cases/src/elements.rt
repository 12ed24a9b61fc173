ghost use Rattle.std.specs.Prelude.{◌≡◌, ◌<◌, length, IfOk, IfSome, option_copied};
ghost use Rattle.script_cases.specs.Members as members;

use crate::listed::{ListedAttribute, ListedDimension, ListedElement};
use lists::ListOf;
use sqlite_items::at;
use std::alloc::{AllocError, Global};

// The place of the dimension of a name, from 0.
fn dimension_place(dimensions: &[ListedDimension], name: &[u8]) -> Option<usize>
    ensures place { result ≡ members.dimension_place dimensions.now name.now }
    ensures within { IfSome result (λ place. place < length dimensions.now) }
{
    dimensions
        .iter()
        .position(|dimension| dimension.name.as_slice() == name)
}

/// The dimension of a name.
pub(crate) fn dimension_named<'a>(
    dimensions: &'a [ListedDimension],
    name: &[u8],
) -> Option<&'a ListedDimension>
    ensures { option_copied result ≡ members.dimension_named dimensions.now name.now }
{
    at(dimensions, dimension_place(dimensions, name)?)
}

/// The place of the element of a name, from 0.
pub(crate) fn place_of(elements: &[ListedElement], name: &[u8]) -> Option<usize>
    ensures place { result ≡ members.place_of elements.now name.now }
    ensures within { IfSome result (λ place. place < length elements.now) }
{
    elements
        .iter()
        .position(|element| element.name.as_slice() == name)
}

/// The element of a name.
pub(crate) fn element_named<'a>(
    elements: &'a [ListedElement],
    name: &[u8],
) -> Option<&'a ListedElement>
    ensures { option_copied result ≡ members.element_named elements.now name.now }
{
    at(elements, place_of(elements, name)?)
}

/// The name of the element at a place, from 1.
pub(crate) fn name_at(
    alloc: Global,
    elements: &[ListedElement],
    place: usize,
) -> Result<Option<ListOf<u8>>, AllocError>
    ensures { IfOk result (λ name. name ≡ members.name_at elements.now place) }
{
    if place == 0 {
        return Ok(None);
    }
    match at(elements, place - 1) {
        Some(element) => {
            let name = Vec::from_slice(alloc, element.name.as_slice())?;
            Ok(Some(ListOf::new(name)))
        }
        None => Ok(None),
    }
}

// The place of the attribute of these names, from 0.
fn attribute_place(attributes: &[ListedAttribute], names: &[u8]) -> Option<usize>
    ensures place { result ≡ members.attribute_place attributes.now names.now }
    ensures within { IfSome result (λ place. place < length attributes.now) }
{
    attributes
        .iter()
        .position(|attribute| attribute.names.as_slice() == names)
}

fn attribute_named<'a>(
    attributes: &'a [ListedAttribute],
    names: &[u8],
) -> Option<&'a ListedAttribute>
    ensures { option_copied result ≡ members.attribute_named attributes.now names.now }
{
    at(attributes, attribute_place(attributes, names)?)
}

/// The text of an attribute; empty where none is listed.
pub(crate) fn attribute_text(
    alloc: Global,
    attributes: &[ListedAttribute],
    names: &[u8],
) -> Result<ListOf<u8>, AllocError>
    ensures { IfOk result (λ text. text
        ≡ members.text_of (members.attribute_named attributes.now names.now)) }
{
    match attribute_named(attributes, names) {
        Some(attribute) => {
            let text = Vec::from_slice(alloc, attribute.text.as_slice())?;
            Ok(ListOf::new(text))
        }
        None => Ok(ListOf::new(Vec::new(alloc))),
    }
}
