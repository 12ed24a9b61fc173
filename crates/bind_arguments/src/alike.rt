ghost use Rattle.std.specs.Prelude.{◌≡◌, ℕ, List, IfSome, IsTrue};
ghost use Rattle.dim_name.specs.Name.{key_of};
ghost use Rattle.bind_arguments.specs.Bound.{AreAlike};
ghost use Rattle.bind_arguments.specs.declared.bound_argument.BoundArgument.TheVariants as bound;

use crate::bound_argument::BoundArgument;
use crate::relative::Relative;
use dim_name::Name;
use std::alloc::{AllocError, Global};

/// Whether two arguments are known to give the same names. The place of a dimension in its cube doesn't matter.
pub(crate) fn is_alike(argument: &BoundArgument, other: &BoundArgument) -> bool
    ensures { IsTrue result → AreAlike argument.now other.now }
{
    match argument {
        BoundArgument::Current { dim, .. } => is_own(other, *dim),
        BoundArgument::AtPlace {
            dim,
            source,
            of,
            shift,
        } => match at_place(other, *dim, *source, *shift) {
            Some(own) => is_alike(of.get(), own),
            None => false,
        },
        BoundArgument::AttributeOf { dim, of, attribute } => {
            match attribute_of(other, *dim, attribute) {
                Some(own) => is_alike(of.get(), own),
                None => false,
            }
        }
        BoundArgument::RelativeOf { dim, of, relative } => {
            match relative_of(other, *dim, *relative) {
                Some(own) => is_alike(of.get(), own),
                None => false,
            }
        }
        _ => false,
    }
}

/// Whether an argument is the cell's own element of this dimension.
pub(crate) fn is_own(argument: &BoundArgument, dim: u32) -> bool
    ensures { IsTrue result → (place : ℕ) × (argument.now ≡ bound.Current place dim) }
{
    match argument {
        BoundArgument::Current { dim: own, .. } => *own == dim,
        _ => false,
    }
}

// The argument by whose index, moved by this, another one gives an element.
fn at_place(argument: &BoundArgument, dim: u32, source: u32, shift: i64) -> Option<&BoundArgument>
    ensures { IfSome result (λ of. argument.now ≡ bound.AtPlace dim source of.now shift) }
{
    match argument {
        BoundArgument::AtPlace {
            dim: own,
            source: its_source,
            of,
            shift: its_shift,
        } if *own == dim && *its_source == source && *its_shift == shift => Some(of.get()),
        _ => None,
    }
}

// The argument of whose element another one gives this attribute.
fn attribute_of<'a>(
    argument: &'a BoundArgument,
    dim: u32,
    attribute: &Name,
) -> Option<&'a BoundArgument>
    ensures { IfSome result (λ of. (name : List ℕ)
        × (key_of attribute.now ≡ key_of name) × (argument.now ≡ bound.AttributeOf dim of.now name)) }
{
    match argument {
        BoundArgument::AttributeOf {
            dim: own,
            of,
            attribute: name,
        } if *own == dim && is_same_attribute(attribute, name) => Some(of.get()),
        _ => None,
    }
}

// The argument of whose element another one gives this relative.
fn relative_of(argument: &BoundArgument, dim: u32, relative: Relative) -> Option<&BoundArgument>
    ensures { IfSome result (λ of. argument.now ≡ bound.RelativeOf dim of.now relative) }
{
    match argument {
        BoundArgument::RelativeOf {
            dim: own,
            of,
            relative: its_own,
        } if *own == dim && *its_own == relative => Some(of.get()),
        _ => None,
    }
}

/// Whether two names are of the same attribute.
pub(crate) fn is_same_attribute(attribute: &Name, other: &Name) -> bool
    ensures { IsTrue result → key_of attribute.now ≡ key_of other.now }
{
    attribute.key() == other.key()
}

/// Bytes by which the map of an argument from so many elements into a dimension is found. Arguments that are alike
/// have the same. What is found is compared, so no proof rests on them.
pub(crate) fn key_of(
    alloc: Global,
    len: u32,
    dim: u32,
    argument: &BoundArgument,
) -> Result<Vec<u8>, AllocError> {
    let mut key = Vec::new(alloc);
    key.extend_from_slice(&len.to_le_bytes())?;
    key.extend_from_slice(&dim.to_le_bytes())?;
    add_argument(&mut key, argument)?;
    Ok(key)
}

// Adds the bytes of an argument.
fn add_argument(key: &mut Vec<u8>, argument: &BoundArgument) -> Result<(), AllocError> {
    match argument {
        BoundArgument::Text(_) | BoundArgument::AtIndex { .. } => key.extend_from_slice(b"-"),
        BoundArgument::Current { dim, .. } => {
            key.extend_from_slice(b"!")?;
            key.extend_from_slice(&dim.to_le_bytes())
        }
        BoundArgument::AtPlace {
            dim,
            source,
            of,
            shift,
        } => {
            key.extend_from_slice(b"+")?;
            key.extend_from_slice(&dim.to_le_bytes())?;
            key.extend_from_slice(&source.to_le_bytes())?;
            key.extend_from_slice(&shift.to_le_bytes())?;
            add_argument(key, of.get())
        }
        BoundArgument::AttributeOf { dim, of, attribute } => {
            key.extend_from_slice(b".")?;
            key.extend_from_slice(&dim.to_le_bytes())?;
            key.extend_from_slice(attribute.key())?;
            // no name has this byte
            key.extend_from_slice(b"\0")?;
            add_argument(key, of.get())
        }
        BoundArgument::RelativeOf { dim, of, relative } => {
            add_relative(key, *relative)?;
            key.extend_from_slice(&dim.to_le_bytes())?;
            add_argument(key, of.get())
        }
    }
}

// Adds the bytes of a relative.
fn add_relative(key: &mut Vec<u8>, relative: Relative) -> Result<(), AllocError> {
    match relative {
        Relative::Parent(place) => {
            key.extend_from_slice(b"^")?;
            key.extend_from_slice(&place.to_le_bytes())
        }
        Relative::Component(place) => {
            key.extend_from_slice(b"v")?;
            key.extend_from_slice(&place.to_le_bytes())
        }
        Relative::NextLeaf => key.extend_from_slice(b">"),
    }
}
