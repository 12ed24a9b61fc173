ghost use Rattle.std.specs.Prelude.{◌≡◌, ◌<◌, All, Ok, length, ok_or, option_and_then, option_copied};
ghost use Rattle.dim_name.specs.Name.{place_of};
ghost use Rattle.cube_space.specs.Layout.{cube_names};
ghost use Rattle.bind_areas.specs.declared.cause.BindCause.TheVariants.{UnknownName};
ghost use Rattle.bind_areas.specs.Meaning.{Answers};
ghost use Rattle.bind_arguments.specs.Argument.{argument_of};
ghost use Rattle.bind_arguments.specs.Bound.{name_in};
ghost use Rattle.bind_arguments.specs.Maps.{AreMapsIn};
ghost use Rattle.rule_bind.specs.References.{cause_of, caused, text_in, fixed_name, cube_of, dimension_called};
ghost use Rattle.rule_bind.specs.References.{children_of, args_of, cell_of_target, db_of};

use bind_areas::{BindCause, place_of};
use bind_arguments::{ArgumentFault, BoundMaps, bind_argument};
use cube_space::Space;
use dim_name::{Name, NameFault};
use lists::ListOf;
use rule_laws::{Arg, Reference};
use rule_tree::Tree;
use std::alloc::Global;

// The cause of a fault in an element argument.
fn cause_of(fault: ArgumentFault) -> BindCause
    ensures { result ≡ cause_of fault }
{
    match fault {
        ArgumentFault::UnknownName => BindCause::UnknownName,
        ArgumentFault::DynamicReference => BindCause::DynamicReference,
        ArgumentFault::Memory => BindCause::Memory,
    }
}

// An element argument.
fn arg_of(
    alloc: Global,
    space: &Space,
    maps: &mut BoundMaps,
    cube: u32,
    dim: u32,
    tree: &Tree,
) -> Result<Arg, BindCause>
    requires cube { cube < length space.now.cubes }
    requires dim { dim < length space.now.dimensions }
    requires maps { AreMapsIn space.now maps.old }
    ensures answers { Answers (caused (argument_of space.now cube dim tree.now)) result }
    ensures maps { AreMapsIn space.now maps.new }
{
    match bind_argument(alloc, space, maps, cube, dim, tree) {
        Ok(arg) => Ok(arg),
        Err(fault) => Err(cause_of(fault)),
    }
}

/// The bytes of a formula that is a quoted text alone.
pub(crate) fn text_in(tree: &Tree) -> Option<&[u8]>
    ensures { option_copied result ≡ text_in tree.now }
{
    match tree {
        Tree::Text(bytes) => Some(bytes.as_slice()),
        _ => None,
    }
}

// The name that a text is, if it is one.
fn name_in(alloc: Global, text: &[u8]) -> Result<Option<Name>, BindCause>
    ensures { Answers (Ok (name_in text.now)) result }
{
    match Name::new(alloc, text) {
        Ok(name) => Ok(Some(name)),
        Err(NameFault::NotAName) => Ok(None),
        Err(NameFault::Memory) => Err(BindCause::Memory),
    }
}

/// The name that a formula is which must be a quoted text.
pub(crate) fn fixed_name(alloc: Global, tree: &Tree) -> Result<Option<Name>, BindCause>
    ensures { Answers (fixed_name tree.now) result }
{
    match text_in(tree) {
        Some(text) => name_in(alloc, text),
        None => Err(BindCause::DynamicReference),
    }
}

// The cube of a name.
fn cube_called(space: &Space, name: &Option<Name>) -> Result<u32, BindCause>
    ensures { Answers (ok_or (option_and_then (place_of (cube_names space.now)) name.now) UnknownName) result }
{
    match name {
        Some(name) => match space.cube_of(name) {
            Some(cube) => Ok(cube),
            None => Err(BindCause::UnknownName),
        },
        None => Err(BindCause::UnknownName),
    }
}

// The cube that a formula names.
fn cube_of(alloc: Global, space: &Space, tree: &Tree) -> Result<u32, BindCause>
    ensures { Answers (cube_of space.now tree.now) result }
{
    let name = fixed_name(alloc, tree)?;
    cube_called(space, &name)
}

// The place in a cube of the dimension of a name.
fn dimension_called(
    alloc: Global,
    space: &Space,
    cube: u32,
    name: &Option<Name>,
) -> Result<u32, BindCause>
    requires { cube < length space.now.cubes }
    ensures { Answers (dimension_called space.now cube name.now) result }
{
    match name {
        Some(_) => place_of(alloc, space, cube, name, &[]),
        None => Err(BindCause::UnknownName),
    }
}

/// The place of the dimension that a `ConsolidateChildren` names.
#[tactic(auto, unfolding(crate::specs::References::children_of))]
pub fn children_of(alloc: Global, space: &Space, cube: u32, tree: &Tree) -> Result<u32, BindCause>
    requires { cube < length space.now.cubes }
    ensures { Answers (children_of space.now cube tree.now) result }
{
    let name = fixed_name(alloc, tree)?;
    dimension_called(alloc, space, cube, &name)
}

// Element arguments, one for each of these dimensions.
fn args_of(
    alloc: Global,
    space: &Space,
    maps: &mut BoundMaps,
    cube: u32,
    dims: &[u32],
    trees: &[Tree],
) -> Result<ListOf<Arg>, BindCause>
    requires cube { cube < length space.now.cubes }
    requires dims { All (λ dim. dim < length space.now.dimensions) dims.now }
    requires each { length trees.now ≡ length dims.now }
    requires maps { AreMapsIn space.now maps.old }
    ensures answers { Answers (args_of space.now cube dims.now trees.now) result }
    ensures maps { AreMapsIn space.now maps.new }
{
    let mut args = Vec::new(alloc);
    'each: for index in 0..dims.len() {
        let arg = arg_of(alloc, space, maps, cube, dims[index], &trees[index])?;
        args.push(arg)?;
    }
    Ok(ListOf::new(args))
}

// The cell of a cube that element arguments name.
fn cell_of_target(
    alloc: Global,
    space: &Space,
    maps: &mut BoundMaps,
    cube: u32,
    target: u32,
    trees: &[Tree],
) -> Result<Reference, BindCause>
    requires cube { cube < length space.now.cubes }
    requires target { target < length space.now.cubes }
    requires maps { AreMapsIn space.now maps.old }
    ensures answers { Answers (cell_of_target space.now cube target trees.now) result }
    ensures maps { AreMapsIn space.now maps.new }
{
    // a space says of itself that it is one
    let _cells = space.size();
    let dims = space.shape(target).dims.as_slice();
    if trees.len() != dims.len() {
        return Err(BindCause::WrongCount);
    }
    let args = args_of(alloc, space, maps, cube, dims, trees)?;
    Ok(Reference { cube: target, args })
}

/// The cell that a `DB` with these arguments names, the first of which is the name of its cube.
#[tactic(auto, unfolding(crate::specs::References::db_of))]
pub fn db_of(
    alloc: Global,
    space: &Space,
    maps: &mut BoundMaps,
    cube: u32,
    trees: &[Tree],
) -> Result<Reference, BindCause>
    requires cube { cube < length space.now.cubes }
    requires maps { AreMapsIn space.now maps.old }
    ensures answers { Answers (db_of space.now cube trees.now) result }
    ensures maps { AreMapsIn space.now maps.new }
{
    match trees {
        [] => Err(BindCause::DynamicReference),
        [first, others @ ..] => {
            let target = cube_of(alloc, space, first)?;
            cell_of_target(alloc, space, maps, cube, target, others)
        }
    }
}
