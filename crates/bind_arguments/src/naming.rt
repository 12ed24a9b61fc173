ghost use Rattle.std.specs.Prelude.{◌≡◌, ◌<◌, ◌^◌, All, IfOk, IfSome, length, position};
ghost use Rattle.std.specs.List.{list_any};
ghost use Rattle.dim_name.specs.Name.{is_same_name};
ghost use Rattle.bind_arguments.specs.Bound as bound;
ghost use Rattle.bind_arguments.specs.Bound.{dimension_at};

use cube_space::Space;
use dim_core::Dimension;
use dim_name::{Name, NameFault};
use std::alloc::{AllocError, Global};

/// The name that a text is, if it is one.
pub(crate) fn name_in(alloc: Global, text: &[u8]) -> Result<Option<Name>, AllocError>
    ensures { IfOk result (λ name. name ≡ bound.name_in text.now) }
{
    match Name::new(alloc, text) {
        Ok(name) => Ok(Some(name)),
        Err(NameFault::NotAName) => Ok(None),
        Err(NameFault::Memory) => Err(AllocError),
    }
}

/// The number of the dimension that a text names.
pub(crate) fn dimension_named(
    alloc: Global,
    space: &Space,
    text: &[u8],
) -> Result<Option<u32>, AllocError>
    ensures named { IfOk result (λ dim. dim ≡ bound.dimension_named space.now text.now) }
    ensures within { IfOk result (λ dim. IfSome dim (λ dim. dim < length space.now.dimensions)) }
{
    match name_in(alloc, text)? {
        Some(name) => Ok(space.dimension_of(&name)),
        None => Ok(None),
    }
}

/// The place of the dimension of this name among these.
pub(crate) fn place_among(space: &Space, dims: &[u32], name: &Name) -> Option<u32>
    requires dims { All (λ dim. dim < length space.now.dimensions) dims.now }
    requires few { length dims.now < 2 ^ 32 }
    ensures place { result ≡ position (λ dim. is_same_name name.now (dimension_at space.now dim).name) dims.now }
    ensures within { IfSome result (λ place. place < length dims.now) }
{
    for (place, dim) in dims.iter().enumerate() {
        if name == space.dimension(*dim).name() {
            return Some(place as u32);
        }
    }
    None
}

/// The name that a text is, if some element of the dimension has an attribute of this name.
pub fn attribute_named(
    alloc: Global,
    dimension: &Dimension,
    text: &[u8],
) -> Result<Option<Name>, AllocError>
    ensures { IfOk result (λ name. name ≡ bound.attribute_named dimension.now text.now) }
{
    match name_in(alloc, text)? {
        Some(name) => if has_attribute(dimension, &name) {
            Ok(Some(name))
        } else {
            Ok(None)
        },
        None => Ok(None),
    }
}

fn has_attribute(dimension: &Dimension, name: &Name) -> bool
    ensures { result ≡ list_any (λ a. is_same_name name.now a.name) dimension.now.attributes }
{
    dimension
        .attributes()
        .iter()
        .any(|attribute| *name == attribute.name)
}
