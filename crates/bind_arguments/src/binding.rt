ghost use Rattle.std.specs.Prelude.{◌<◌, IfOk, IsTrue, length, map};
ghost use Rattle.std.specs.Option.{option_map, ok_or};
ghost use Rattle.cube_fixed.specs.Range.{IsInRange};
ghost use Rattle.bind_arguments.specs.Written.{Element, Current, argument_of_part, number_part, part_in};
ghost use Rattle.bind_arguments.specs.Written.{call_part, name_call, index_call, attribute_call, at_index};
ghost use Rattle.bind_arguments.specs.Written.{related, relative_call};
ghost use Rattle.bind_arguments.specs.declared.bound_argument.BoundArgument.TheVariants as bound;
ghost use Rattle.bind_arguments.specs.declared.fault.ArgumentFault.TheVariants.{UnknownName};
ghost use Rattle.bind_arguments.specs.Argument.{IsAnsweredBy};
ghost use Rattle.bind_arguments.specs.Inside.Reading.{bound_part, bound_place, placed, at_moved, attributed};
ghost use Rattle.bind_arguments.specs.Inside.Within.{is_within};

use crate::bound_argument::BoundArgument;
use crate::fault::ArgumentFault;
use crate::naming::{attribute_named, dimension_named, name_in, place_among};
use crate::reading::{relative_called, shift_of, text_of, whole_number};
use crate::relative::Relative;
use cube_fixed::Money;
use cube_space::Space;
use dim_name::Name;
use rule_tree::Tree;
use sqlite_items::Boxed;
use std::alloc::Global;

/// The element argument that a formula is, with its names bound.
#[cycle(bind)]
pub(crate) fn bind_element(
    alloc: Global,
    space: &Space,
    cube: u32,
    tree: &Tree,
) -> Result<BoundArgument, ArgumentFault>
    requires { cube < length space.now.cubes }
    ensures answered { IsAnsweredBy (bound_part space.now cube (part_in tree.now)) result }
    ensures within { IfOk result (λ argument. IsTrue (is_within space.now cube argument)) }
{
    match tree {
        Tree::Text(text) => Ok(BoundArgument::Text(name_in(alloc, text.as_slice())?)),
        Tree::Current(name) => bind_current(space, cube, name),
        Tree::Call(function, arguments) => {
            bind_call(
                alloc,
                space,
                cube,
                function.as_slice(),
                arguments.as_slice(),
            )
        }
        _ => Err(ArgumentFault::DynamicReference),
    }
}

// `!` and a dimension.
fn bind_current(space: &Space, cube: u32, name: &Name) -> Result<BoundArgument, ArgumentFault>
    requires { cube < length space.now.cubes }
    ensures answered { IsAnsweredBy (bound_part space.now cube (Element (Current name.now))) result }
    ensures within { IfOk result (λ argument. IsTrue (is_within space.now cube argument)) }
{
    // a space says of itself that it is one
    let _cells = space.size();
    let dims = space.shape(cube).dims.as_slice();
    match place_among(space, dims, name) {
        Some(place) => {
            let dim = dims[place as usize];
            Ok(BoundArgument::Current { place, dim })
        }
        None => Err(ArgumentFault::UnknownName),
    }
}

// A function that gives an element.
#[cycle(bind)]
fn bind_call(
    alloc: Global,
    space: &Space,
    cube: u32,
    function: &[u8],
    arguments: &[Tree],
) -> Result<BoundArgument, ArgumentFault>
    requires { cube < length space.now.cubes }
    ensures answered { IsAnsweredBy (bound_part space.now cube
        (call_part function.now (map part_in arguments.now))) result }
    ensures within { IfOk result (λ argument. IsTrue (is_within space.now cube argument)) }
{
    if function == b"DIMNM".as_slice() {
        bind_at_index(alloc, space, cube, arguments)
    } else if function == b"ATTRS".as_slice() {
        bind_attribute(alloc, space, cube, arguments)
    } else {
        bind_relative(alloc, space, cube, function, arguments)
    }
}

// `DIMNM` of these arguments.
#[cycle(bind)]
fn bind_at_index(
    alloc: Global,
    space: &Space,
    cube: u32,
    arguments: &[Tree],
) -> Result<BoundArgument, ArgumentFault>
    requires { cube < length space.now.cubes }
    ensures answered { IsAnsweredBy (bound_part space.now cube (name_call (map part_in arguments.now))) result }
    ensures within { IfOk result (λ argument. IsTrue (is_within space.now cube argument)) }
{
    if arguments.len() != 2 {
        return Err(ArgumentFault::DynamicReference);
    }
    match text_of(&arguments[0]) {
        Some(dim) => bind_index(alloc, space, cube, dim, &arguments[1]),
        None => Err(ArgumentFault::DynamicReference),
    }
}

// `DIMNM` of a dimension and this index.
#[cycle(bind)]
fn bind_index(
    alloc: Global,
    space: &Space,
    cube: u32,
    dim: &[u8],
    index: &Tree,
) -> Result<BoundArgument, ArgumentFault>
    requires { cube < length space.now.cubes }
    ensures answered { IsAnsweredBy (bound_part space.now cube (at_index dim.now (part_in index.now))) result }
    ensures within { IfOk result (λ argument. IsTrue (is_within space.now cube argument)) }
{
    match index {
        Tree::Number(number) => bind_number(alloc, space, cube, dim, *number),
        Tree::Call(_, _) => bind_moved(alloc, space, cube, dim, index, 0),
        Tree::Binary(op, left, right) => match shift_of(*op, right.get()) {
            Some(shift) => bind_moved(alloc, space, cube, dim, left.get(), shift),
            None => Err(ArgumentFault::DynamicReference),
        },
        _ => Err(ArgumentFault::DynamicReference),
    }
}

// `DIMNM` of a dimension and a number.
fn bind_number(
    alloc: Global,
    space: &Space,
    cube: u32,
    dim: &[u8],
    number: Money,
) -> Result<BoundArgument, ArgumentFault>
    requires { cube < length space.now.cubes }
    ensures answered { IsAnsweredBy (bound_part space.now cube (at_index dim.now (number_part number))) result }
    ensures within { IfOk result (λ argument. IsTrue (is_within space.now cube argument)) }
{
    match whole_number(number) {
        Some(index) => match dimension_named(alloc, space, dim)? {
            Some(dim) => Ok(BoundArgument::AtIndex { dim, index }),
            None => Err(ArgumentFault::UnknownName),
        },
        None => Err(ArgumentFault::DynamicReference),
    }
}

// `DIMNM` of a dimension and so much more than `DIMIX` of what stands here.
#[cycle(bind)]
fn bind_moved(
    alloc: Global,
    space: &Space,
    cube: u32,
    dim: &[u8],
    index: &Tree,
    shift: i64,
) -> Result<BoundArgument, ArgumentFault>
    requires cube { cube < length space.now.cubes }
    requires shift { IsInRange shift }
    ensures answered { IsAnsweredBy (bound_part space.now cube (at_moved dim.now (part_in index.now) shift)) result }
    ensures within { IfOk result (λ argument. IsTrue (is_within space.now cube argument)) }
{
    match index {
        Tree::Call(function, arguments) => if function.as_slice() == b"DIMIX".as_slice() {
            bind_place(alloc, space, cube, dim, arguments.as_slice(), shift)
        } else {
            Err(ArgumentFault::DynamicReference)
        },
        _ => Err(ArgumentFault::DynamicReference),
    }
}

// `DIMNM` of a dimension and so much more than `DIMIX` of these arguments.
#[cycle(bind)]
fn bind_place(
    alloc: Global,
    space: &Space,
    cube: u32,
    dim: &[u8],
    arguments: &[Tree],
    shift: i64,
) -> Result<BoundArgument, ArgumentFault>
    requires cube { cube < length space.now.cubes }
    requires shift { IsInRange shift }
    ensures answered { IsAnsweredBy (bound_part space.now cube
        (at_moved dim.now (index_call (map part_in arguments.now)) shift)) result }
    ensures within { IfOk result (λ argument. IsTrue (is_within space.now cube argument)) }
{
    if arguments.len() != 2 {
        return Err(ArgumentFault::DynamicReference);
    }
    match text_of(&arguments[0]) {
        Some(source) => bind_at_place(alloc, space, cube, dim, source, &arguments[1], shift),
        None => Err(ArgumentFault::DynamicReference),
    }
}

// `DIMNM` of a dimension and so much more than `DIMIX` of another one and this argument.
#[cycle(bind)]
fn bind_at_place(
    alloc: Global,
    space: &Space,
    cube: u32,
    dim: &[u8],
    source: &[u8],
    of: &Tree,
    shift: i64,
) -> Result<BoundArgument, ArgumentFault>
    requires cube { cube < length space.now.cubes }
    requires shift { IsInRange shift }
    ensures answered { IsAnsweredBy (bound_part space.now cube
        (placed dim.now source.now (argument_of_part (part_in of.now)) shift)) result }
    ensures within { IfOk result (λ argument. IsTrue (is_within space.now cube argument)) }
{
    let of = bind_element(alloc, space, cube, of)?;
    let source = dimension_named(alloc, space, source)?;
    let dim = dimension_named(alloc, space, dim)?;
    at_place(alloc, dim, source, of, shift)
}

// The element of a dimension by its place behind that of a bound argument in another one, where both are known.
fn at_place(
    alloc: Global,
    dim: Option<u32>,
    source: Option<u32>,
    of: BoundArgument,
    shift: i64,
) -> Result<BoundArgument, ArgumentFault>
    ensures { IsAnsweredBy (ok_or (bound_place dim source shift of) UnknownName) result }
{
    match (source, dim) {
        (Some(source), Some(dim)) => {
            let of = Boxed::new(alloc, of)?;
            Ok(BoundArgument::AtPlace {
                dim,
                source,
                of,
                shift,
            })
        }
        _ => Err(ArgumentFault::UnknownName),
    }
}

// `ATTRS` of these arguments.
#[cycle(bind)]
fn bind_attribute(
    alloc: Global,
    space: &Space,
    cube: u32,
    arguments: &[Tree],
) -> Result<BoundArgument, ArgumentFault>
    requires { cube < length space.now.cubes }
    ensures answered { IsAnsweredBy (bound_part space.now cube (attribute_call (map part_in arguments.now))) result }
    ensures within { IfOk result (λ argument. IsTrue (is_within space.now cube argument)) }
{
    if arguments.len() != 3 {
        return Err(ArgumentFault::DynamicReference);
    }
    match text_of(&arguments[0]) {
        Some(dim) => match text_of(&arguments[2]) {
            Some(attribute) => {
                bind_attribute_of(alloc, space, cube, dim, &arguments[1], attribute)
            }
            None => Err(ArgumentFault::DynamicReference),
        },
        None => Err(ArgumentFault::DynamicReference),
    }
}

// `ATTRS` of a dimension, this argument and an attribute.
#[cycle(bind)]
fn bind_attribute_of(
    alloc: Global,
    space: &Space,
    cube: u32,
    dim: &[u8],
    of: &Tree,
    attribute: &[u8],
) -> Result<BoundArgument, ArgumentFault>
    requires { cube < length space.now.cubes }
    ensures answered { IsAnsweredBy (bound_part space.now cube
        (attributed dim.now (argument_of_part (part_in of.now)) attribute.now)) result }
    ensures within { IfOk result (λ argument. IsTrue (is_within space.now cube argument)) }
{
    let of = bind_element(alloc, space, cube, of)?;
    match dimension_named(alloc, space, dim)? {
        Some(dim) => {
            let attribute = attribute_named(alloc, space.dimension(dim), attribute)?;
            attribute_of(alloc, dim, of, attribute)
        }
        None => Err(ArgumentFault::UnknownName),
    }
}

// An attribute of a bound argument's element, where it is known.
fn attribute_of(
    alloc: Global,
    dim: u32,
    of: BoundArgument,
    attribute: Option<Name>,
) -> Result<BoundArgument, ArgumentFault>
    ensures { IsAnsweredBy (ok_or (option_map (λ name. bound.AttributeOf dim of name) attribute) UnknownName) result }
{
    match attribute {
        Some(attribute) => {
            let of = Boxed::new(alloc, of)?;
            Ok(BoundArgument::AttributeOf { dim, of, attribute })
        }
        None => Err(ArgumentFault::UnknownName),
    }
}

// `ELPAR`, `ELCOMP` or `DNEXT` of these arguments.
#[cycle(bind)]
fn bind_relative(
    alloc: Global,
    space: &Space,
    cube: u32,
    function: &[u8],
    arguments: &[Tree],
) -> Result<BoundArgument, ArgumentFault>
    requires { cube < length space.now.cubes }
    ensures answered { IsAnsweredBy (bound_part space.now cube
        (relative_call function.now (map part_in arguments.now))) result }
    ensures within { IfOk result (λ argument. IsTrue (is_within space.now cube argument)) }
{
    if arguments.len() < 2 {
        return Err(ArgumentFault::DynamicReference);
    }
    match text_of(&arguments[0]) {
        Some(dim) => match relative_called(function, &arguments[2..]) {
            Some(relative) => bind_relative_of(alloc, space, cube, dim, &arguments[1], relative),
            None => Err(ArgumentFault::DynamicReference),
        },
        None => Err(ArgumentFault::DynamicReference),
    }
}

// A relative, in a dimension, of this argument's element.
#[cycle(bind)]
fn bind_relative_of(
    alloc: Global,
    space: &Space,
    cube: u32,
    dim: &[u8],
    of: &Tree,
    relative: Relative,
) -> Result<BoundArgument, ArgumentFault>
    requires { cube < length space.now.cubes }
    ensures answered { IsAnsweredBy (bound_part space.now cube
        (related dim.now (argument_of_part (part_in of.now)) relative)) result }
    ensures within { IfOk result (λ argument. IsTrue (is_within space.now cube argument)) }
{
    let of = bind_element(alloc, space, cube, of)?;
    let dim = dimension_named(alloc, space, dim)?;
    relative_of(alloc, dim, of, relative)
}

// A relative, in a dimension, of a bound argument's element, where the dimension is known.
fn relative_of(
    alloc: Global,
    dim: Option<u32>,
    of: BoundArgument,
    relative: Relative,
) -> Result<BoundArgument, ArgumentFault>
    ensures { IsAnsweredBy (ok_or (option_map (λ d. bound.RelativeOf d of relative) dim) UnknownName) result }
{
    match dim {
        Some(dim) => {
            let of = Boxed::new(alloc, of)?;
            Ok(BoundArgument::RelativeOf { dim, of, relative })
        }
        None => Err(ArgumentFault::UnknownName),
    }
}
