ghost use Rattle.std.specs.Prelude.{◌≡◌, ◌<◌, ◌≤◌, ◌^◌, ℕ, suc, pos, unsigned_abs, length, slice_get};
ghost use Rattle.std.specs.Prelude.{IfOk, IfSome, IsTrue};
ghost use Rattle.std.specs.Option.{option_and_then, option_map_or};
ghost use Rattle.dim_core.specs.Outline.{index_of, names_of};
ghost use Rattle.bind_arguments.specs.Argument.{table_over};
ghost use Rattle.bind_arguments.specs.Bound as bound;
ghost use Rattle.bind_arguments.specs.Bound.{dimension_at, name_in, name_at, name_given};
ghost use Rattle.bind_arguments.specs.Family.{relative_of};
ghost use Rattle.bind_arguments.specs.Inside.Families.{AreFamiliesIn};
ghost use Rattle.bind_arguments.specs.Inside.Within.{is_within};

use crate::bound_argument::BoundArgument;
use crate::families::Families;
use crate::naming::name_in;
use crate::relative::Relative;
use cube_space::Space;
use dim_core::Dimension;
use dim_name::Name;
use rule_laws::ElementMap;
use std::alloc::{AllocError, Global};

/// The place in the statement's cube of the dimension that an argument follows.
pub(crate) fn followed(argument: &BoundArgument) -> Option<u32>
    ensures { result ≡ bound.followed argument.now }
{
    match argument {
        BoundArgument::Text(_) => None,
        BoundArgument::Current { place, .. } => Some(*place),
        BoundArgument::AtIndex { .. } => None,
        BoundArgument::AtPlace { of, .. } => followed(of.get()),
        BoundArgument::AttributeOf { of, .. } => followed(of.get()),
        BoundArgument::RelativeOf { of, .. } => followed(of.get()),
    }
}

/// The element that a text names.
pub(crate) fn element_named(
    alloc: Global,
    dimension: &Dimension,
    text: &[u8],
) -> Result<Option<u32>, AllocError>
    ensures { IfOk result (λ element. element ≡ option_and_then (index_of dimension.now) (name_in text.now)) }
{
    let name = name_in(alloc, text)?;
    Ok(element_called(dimension, &name))
}

// The element of this name, if there is a name.
fn element_called(dimension: &Dimension, name: &Option<Name>) -> Option<u32>
    ensures { result ≡ option_and_then (index_of dimension.now) name.now }
{
    match name {
        Some(name) => dimension.index_of(name),
        None => None,
    }
}

// The element that has the name of an element of another dimension.
fn same_element(dimension: &Dimension, other: &Dimension, element: u32) -> Option<u32>
    ensures { result ≡ option_and_then (index_of dimension.now) (slice_get (names_of other.now.elements) element) }
{
    if element < other.len() {
        dimension.index_of(other.name_of(element))
    } else {
        None
    }
}

// The element that has the name of that of this index, from 1, in another dimension.
fn element_at(dimension: &Dimension, other: &Dimension, index: i64) -> Option<u32>
    ensures { result ≡ option_and_then (index_of dimension.now) (name_at other.now index) }
{
    if index < 1 || index > i64::from(other.len()) {
        None
    } else {
        same_element(dimension, other, (index - 1) as u32)
    }
}

// The index, from 1, of an element; 0 where there is none.
fn index_of(element: Option<u32>) -> i64
    ensures value { result ≡ option_map_or (λ e. pos (suc e)) element (pos 0) }
    ensures small { unsigned_abs result ≤ 2 ^ 32 }
{
    match element {
        Some(element) => i64::from(element) + 1,
        None => 0,
    }
}

// The element of a dimension that has the name of a relative of this element of another one, if there is one.
fn relative_given(
    alloc: Global,
    space: &Space,
    families: &mut Families,
    dimension: &Dimension,
    dim: u32,
    relative: Relative,
    element: Option<u32>,
) -> Result<Option<u32>, AllocError>
    requires dim { dim < length space.now.dimensions }
    requires element { IfSome element (λ element. element < length (dimension_at space.now dim).elements) }
    requires families { AreFamiliesIn space.now families.old }
    ensures given { IfOk result (λ given. given ≡ option_and_then (index_of dimension.now) (option_and_then
        (slice_get (names_of (dimension_at space.now dim).elements))
        (option_and_then (relative_of (dimension_at space.now dim) relative) element))) }
    ensures families { AreFamiliesIn space.now families.new }
{
    match element {
        Some(element) => match families.relative_of(alloc, space, dim, relative, element)? {
            Some(given) => Ok(same_element(dimension, space.dimension(dim), given)),
            None => Ok(None),
        },
        None => Ok(None),
    }
}

/// The element of a dimension that an argument means, where the dimension that it follows has this element.
pub(crate) fn element_given(
    alloc: Global,
    space: &Space,
    families: &mut Families,
    dimension: &Dimension,
    argument: &BoundArgument,
    element: u32,
) -> Result<Option<u32>, AllocError>
    requires within { (cube : ℕ) × IsTrue (is_within space.now cube argument.now) }
    requires families { AreFamiliesIn space.now families.old }
    ensures given { IfOk result (λ given. given
        ≡ option_and_then (index_of dimension.now) (name_given space.now element argument.now)) }
    ensures families { AreFamiliesIn space.now families.new }
{
    match argument {
        BoundArgument::Text(name) => Ok(element_called(dimension, name)),
        BoundArgument::Current { dim, .. } => {
            Ok(same_element(dimension, space.dimension(*dim), element))
        }
        BoundArgument::AtIndex { dim, index } => {
            Ok(element_at(dimension, space.dimension(*dim), *index))
        }
        BoundArgument::AtPlace {
            dim,
            source,
            of,
            shift,
        } => {
            let source = space.dimension(*source);
            let place = element_given(alloc, space, families, source, of.get(), element)?;
            let index = index_of(place) + *shift;
            Ok(element_at(dimension, space.dimension(*dim), index))
        }
        BoundArgument::AttributeOf { dim, of, attribute } => {
            let owner = space.dimension(*dim);
            match element_given(alloc, space, families, owner, of.get(), element)? {
                Some(owned) => element_named(alloc, dimension, owner.attribute(owned, attribute)),
                None => Ok(None),
            }
        }
        BoundArgument::RelativeOf { dim, of, relative } => {
            let owner = space.dimension(*dim);
            let owned = element_given(alloc, space, families, owner, of.get(), element)?;
            relative_given(alloc, space, families, dimension, *dim, *relative, owned)
        }
    }
}

/// For each of so many elements of the dimension that an argument follows, the element of a dimension that it means.
pub(crate) fn elements_given(
    alloc: Global,
    space: &Space,
    families: &mut Families,
    dim: u32,
    argument: &BoundArgument,
    len: u32,
) -> Result<ElementMap, AllocError>
    requires dim { dim < length space.now.dimensions }
    requires within { (cube : ℕ) × IsTrue (is_within space.now cube argument.now) }
    requires families { AreFamiliesIn space.now families.old }
    ensures given { IfOk result (λ given. given ≡ table_over space.now dim argument.now len) }
    ensures families { AreFamiliesIn space.now families.new }
{
    let dimension = space.dimension(dim);
    let mut to = Vec::with_capacity(alloc, len as usize)?;
    for element in 0..len {
        let given = element_given(alloc, space, families, dimension, argument, element)?;
        to.push(given)?;
    }
    ElementMap::listed(alloc, to)
}
