ghost use Rattle.std.specs.Prelude.{◌≡◌, ◌<◌, ℕ, length, Some, IfOk, IfSome, IsTrue};
ghost use Rattle.std.specs.Option.{option_map, option_and_then, ok_or};
ghost use Rattle.cube_space.specs.Cells.{IsSpace};
ghost use Rattle.cube_space.specs.Layout.{dims_of, sizes};
ghost use Rattle.dim_core.specs.Outline.{index_of};
ghost use Rattle.rule_model.specs.Conditions.{IsArg};
ghost use Rattle.rule_laws.specs.declared.reference.Arg.TheVariants.{Fixed};
ghost use Rattle.bind_arguments.specs.Bound as bound;
ghost use Rattle.bind_arguments.specs.Bound.{name_in, dimension_at};
ghost use Rattle.bind_arguments.specs.Argument as bindings;
ghost use Rattle.bind_arguments.specs.Argument.{argument_of, size_at, table, IsAnsweredBy};
ghost use Rattle.bind_arguments.specs.Maps.{AreMapsIn};
ghost use Rattle.bind_arguments.specs.Inside.Within.{is_within};
ghost use Rattle.bind_arguments.specs.Inside.Moves.{IsOwnMove, moved_by};
ghost use Rattle.bind_arguments.specs.declared.fault.ArgumentFault.TheVariants.{UnknownName};

use crate::alike::is_own;
use crate::binding::bind_element;
use crate::bound_argument::BoundArgument;
use crate::bound_maps::BoundMaps;
use crate::fault::ArgumentFault;
use crate::giving::{element_named, followed};
use cube_space::Space;
use rule_laws::{Arg, ElementMap};
use rule_tree::Tree;
use std::alloc::{AllocError, Global};

/// Binds an element argument of a `DB` in a statement of a cube. `dim` is the number, in the model, of the dimension
/// of the target's cube at the argument's place.
///
/// What depends on no dimension of the cell is one element, or goes nowhere; what depends on one is a table over that
/// dimension, which takes no memory where each element goes to itself or moves by so many places. Equal tables are
/// one, by the maps that were made so far in this space.
pub fn bind_argument(
    alloc: Global,
    space: &Space,
    maps: &mut BoundMaps,
    cube: u32,
    dim: u32,
    tree: &Tree,
) -> Result<Arg, ArgumentFault>
    requires cube { cube < length space.now.cubes }
    requires dim { dim < length space.now.dimensions }
    requires maps { AreMapsIn space.now maps.old }
    ensures answered { IsAnsweredBy (argument_of space.now cube dim tree.now) result }
    ensures arg { IfOk result (IsArg (sizes space.now cube) (length (dimension_at space.now dim).elements)) }
    ensures maps { AreMapsIn space.now maps.new }
{
    // a space says of itself that it is one
    let _cells = space.size();
    match tree {
        Tree::Text(text) => bind_text(alloc, space, dim, text.as_slice()),
        _ => {
            let argument = bind_element(alloc, space, cube, tree)?;
            let arg = arg_of(alloc, space, maps, cube, dim, argument)?;
            Ok(arg)
        }
    }
}

// A text that is itself the argument: an element of the target's dimension.
fn bind_text(alloc: Global, space: &Space, dim: u32, text: &[u8]) -> Result<Arg, ArgumentFault>
    requires { dim < length space.now.dimensions }
    ensures { IsAnsweredBy (ok_or (option_map Fixed (option_and_then
        (index_of (dimension_at space.now dim)) (name_in text.now))) UnknownName) result }
{
    match element_named(alloc, space.dimension(dim), text)? {
        Some(element) => Ok(Arg::Fixed(element)),
        None => Err(ArgumentFault::UnknownName),
    }
}

// What is bound of an argument whose names are known.
fn arg_of(
    alloc: Global,
    space: &Space,
    maps: &mut BoundMaps,
    cube: u32,
    dim: u32,
    argument: BoundArgument,
) -> Result<Arg, AllocError>
    requires valid { IsSpace space.now }
    requires cube { cube < length space.now.cubes }
    requires dim { dim < length space.now.dimensions }
    requires within { IsTrue (is_within space.now cube argument) }
    requires maps { AreMapsIn space.now maps.old }
    ensures arg { IfOk result (λ arg. arg ≡ bindings.arg_of space.now cube dim argument) }
    ensures maps { AreMapsIn space.now maps.new }
{
    match followed(&argument) {
        Some(from) => {
            let to = elements_from(alloc, space, maps, cube, dim, argument, from)?;
            Ok(Arg::Moved { from, to })
        }
        None => {
            let element = maps.element_of(alloc, space, dim, &argument)?;
            Ok(still(space, cube, element))
        }
    }
}

// For each element of the dimension at this place of the cube, the element of the target's dimension.
fn elements_from(
    alloc: Global,
    space: &Space,
    maps: &mut BoundMaps,
    cube: u32,
    dim: u32,
    argument: BoundArgument,
    place: u32,
) -> Result<ElementMap, AllocError>
    requires valid { IsSpace space.now }
    requires cube { cube < length space.now.cubes }
    requires dim { dim < length space.now.dimensions }
    requires within { IsTrue (is_within space.now cube argument) }
    requires followed { bound.followed argument ≡ Some place }
    requires maps { AreMapsIn space.now maps.old }
    ensures to { IfOk result (λ to. to ≡ table space.now cube dim argument place) }
    ensures maps { AreMapsIn space.now maps.new }
{
    let len = axis_len(space, cube, place);
    if is_own(&argument, dim) {
        return Ok(ElementMap::identity(len));
    }
    match own_move(&argument, dim) {
        Some(shift) => Ok(moved_by(len, shift)),
        None => maps.map_of(alloc, space, dim, argument, len),
    }
}

// By how many places an argument moves the cell's own element of this dimension, if it does only that.
fn own_move(argument: &BoundArgument, dim: u32) -> Option<i64>
    ensures { IfSome result (λ shift. IsOwnMove dim shift argument.now) }
{
    match argument {
        BoundArgument::AtPlace {
            dim: own,
            source,
            of,
            shift,
        } => {
            if *own == dim && *source == dim && is_own(of.get(), dim) {
                Some(*shift)
            } else {
                None
            }
        }
        _ => None,
    }
}

// Each of so many elements goes to the one so many places behind it, or before it by a number below 0.
fn moved_by(len: u32, shift: i64) -> ElementMap
    ensures { result ≡ moved_by len shift }
{
    let places = shift.unsigned_abs().min(u64::from(u32::MAX)) as u32;
    if shift < 0 {
        ElementMap::before(len, places)
    } else {
        ElementMap::behind(len, places)
    }
}

// An argument that follows no dimension: one element, or none from every cell.
fn still(space: &Space, cube: u32, element: Option<u32>) -> Arg
    requires valid { IsSpace space.now }
    requires cube { cube < length space.now.cubes }
    ensures { result ≡ bindings.still space.now cube element }
{
    match element {
        Some(element) => Arg::Fixed(element),
        None => {
            let len = axis_len(space, cube, 0);
            Arg::Moved {
                from: 0,
                to: ElementMap::nowhere(len),
            }
        }
    }
}

// How many elements the dimension at a place of a cube has.
fn axis_len(space: &Space, cube: u32, place: u32) -> u32
    requires valid { IsSpace space.now }
    requires cube { cube < length space.now.cubes }
    requires place { place < length (dims_of space.now cube) }
    ensures { result ≡ size_at space.now cube place }
{
    let dims = space.shape(cube).dims.as_slice();
    space.dimension(dims[place as usize]).len()
}
