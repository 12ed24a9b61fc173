ghost use Rattle.std.specs.Prelude.{◌≡◌, ◌<◌, ℕ, Ok, IfOk, length};
ghost use Rattle.cube_space.specs.Layout.{axes};
ghost use Rattle.bind_arguments.specs.declared.element_function.ElementFunction.TheVariants as functions;
ghost use Rattle.bind_areas.specs.Meaning.{Answers};
ghost use Rattle.bind_arguments.specs.Maps.{AreMapsIn};
ghost use Rattle.bind_arguments.specs.Numbers.{is_within_at};
ghost use Rattle.rule_bind.specs.OwnNumbers.{axis_named, own_place, element_at, attribute_at, table_at};
ghost use Rattle.rule_bind.specs.OwnNumbers.{own_axis, plain_place, under, upper_call, component_call, attribute_call};
ghost use Rattle.rule_bind.specs.OwnNumbers.{own_call};

use crate::boxes::boxed;
use crate::function::OwnFunction;
use crate::reference::{fixed_name, text_in};
use bind_areas::BindCause;
use bind_arguments::{BoundMaps, ElementFunction, attribute_named};
use cube_space::{Space, axis, axis_called};
use dim_name::Name;
use rule_laws::Formula;
use rule_tree::Tree;
use sqlite_items::Boxed;
use std::alloc::Global;

// The place in a cube of the dimension that a quoted text names.
#[tactic(auto, unfolding(crate::specs::OwnNumbers::axis_named))]
fn axis_named(alloc: Global, space: &Space, cube: u32, tree: &Tree) -> Result<u32, BindCause>
    requires { cube < length space.now.cubes }
    ensures answers { Answers (axis_named space.now cube tree.now) result }
    ensures within { IfOk result (λ place. place < length (axes space.now cube)) }
{
    let Some(name) = fixed_name(alloc, tree)? else {
        return Err(BindCause::UnknownName);
    };
    match axis_called(space, cube, &name) {
        Some(place) => Ok(place),
        None => Err(BindCause::UnknownName),
    }
}

// The place of a dimension again, where a `!` follows it.
#[tactic(auto, unfolding(crate::specs::OwnNumbers::own_place))]
fn own_place(space: &Space, cube: u32, place: u32, tree: &Tree) -> Result<u32, BindCause>
    requires cube { cube < length space.now.cubes }
    ensures answers { Answers (own_place space.now cube place tree.now) result }
    ensures within { IfOk result (λ own. own ≡ place) }
{
    let Tree::Current(name) = tree else {
        return Err(BindCause::Unsupported);
    };
    match axis_called(space, cube, name) {
        Some(other) if other == place => Ok(place),
        Some(_) => Err(BindCause::Unsupported),
        None => Err(BindCause::UnknownName),
    }
}

/// The place of the dimension that a quoted text names, where a `!` and that dimension follow it.
#[tactic(auto, unfolding(crate::specs::OwnNumbers::own_axis))]
pub(crate) fn own_axis(
    alloc: Global,
    space: &Space,
    cube: u32,
    dim: &Tree,
    of: &Tree,
) -> Result<u32, BindCause>
    requires { cube < length space.now.cubes }
    ensures answers { Answers (own_axis space.now cube dim.now of.now) result }
    ensures within { IfOk result (λ own. own < length (axes space.now cube)) }
{
    let place = axis_named(alloc, space, cube, dim)?;
    own_place(space, cube, place, of)
}

// The element of the dimension at a place that a quoted text names.
#[tactic(auto, unfolding(crate::specs::OwnNumbers::element_at))]
fn element_at(
    alloc: Global,
    space: &Space,
    cube: u32,
    place: u32,
    tree: &Tree,
) -> Result<u32, BindCause>
    requires cube { cube < length space.now.cubes }
    requires place { place < length (axes space.now cube) }
    ensures answers { Answers (element_at space.now cube place tree.now) result }
    ensures within { IfOk result (λ element. is_within_at space.now cube place (functions.ComponentOf element)) }
{
    let Some(name) = fixed_name(alloc, tree)? else {
        return Err(BindCause::UnknownName);
    };
    match axis(space, cube, place).index_of(&name) {
        Some(element) => Ok(element),
        None => Err(BindCause::UnknownName),
    }
}

/// The attribute of this name that some element of the dimension at a place has.
#[tactic(auto, unfolding(crate::specs::OwnNumbers::attribute_at))]
pub(crate) fn attribute_at(
    alloc: Global,
    space: &Space,
    cube: u32,
    place: u32,
    tree: &Tree,
) -> Result<Name, BindCause>
    requires cube { cube < length space.now.cubes }
    requires place { place < length (axes space.now cube) }
    ensures answers { Answers (attribute_at space.now cube place tree.now) result }
    ensures within { IfOk result (λ name. is_within_at space.now cube place (functions.Attribute name)) }
{
    let Some(text) = text_in(tree) else {
        return Err(BindCause::DynamicReference);
    };
    match attribute_named(alloc, axis(space, cube, place), text)? {
        Some(name) => Ok(name),
        None => Err(BindCause::UnknownName),
    }
}

/// The table of a function over the dimension at a place of a cube.
pub(crate) fn table_at(
    alloc: Global,
    space: &Space,
    maps: &mut BoundMaps,
    cube: u32,
    place: u32,
    function: ElementFunction,
) -> Result<Boxed<Formula>, BindCause>
    requires cube { cube < length space.now.cubes }
    requires place { place < length (axes space.now cube) }
    requires within { is_within_at space.now cube place function }
    requires maps { AreMapsIn space.now maps.old }
    ensures answers { Answers (Ok (table_at space.now cube place function)) result }
    ensures maps { AreMapsIn space.now maps.new }
{
    let table = maps.table_of(alloc, space, cube, place, function)?;
    boxed(alloc, Formula::Table(place, table))
}

/// The place of the dimension of a function of the cell's own element and of nothing else.
pub(crate) fn plain_place(
    alloc: Global,
    space: &Space,
    cube: u32,
    arguments: &[Tree],
) -> Result<u32, BindCause>
    requires cube { cube < length space.now.cubes }
    ensures answers { Answers (plain_place space.now cube arguments.now) result }
    ensures within { IfOk result (λ own. own < length (axes space.now cube)) }
{
    match arguments {
        [dim, of] => own_axis(alloc, space, cube, dim, of),
        _ => Err(BindCause::WrongCount),
    }
}

// Whether an element is a component of another one, or lies below it.
fn under(deep: bool, above: u32) -> ElementFunction
    ensures { result ≡ under deep above }
{
    if deep {
        ElementFunction::Below(above)
    } else {
        ElementFunction::ComponentOf(above)
    }
}

// Whether an element is a parent of the cell's own one, or lies above it.
#[tactic(auto, using(crate::proofs::OwnFacts::under_within))]
fn upper_call(
    alloc: Global,
    space: &Space,
    maps: &mut BoundMaps,
    cube: u32,
    deep: bool,
    arguments: &[Tree],
) -> Result<Boxed<Formula>, BindCause>
    requires cube { cube < length space.now.cubes }
    requires maps { AreMapsIn space.now maps.old }
    ensures answers { Answers (upper_call space.now cube deep arguments.now) result }
    ensures maps { AreMapsIn space.now maps.new }
{
    match arguments {
        [dim, element, of] => {
            let place = axis_named(alloc, space, cube, dim)?;
            let above = element_at(alloc, space, cube, place, element)?;
            let own = own_place(space, cube, place, of)?;
            table_at(alloc, space, maps, cube, own, under(deep, above))
        }
        _ => Err(BindCause::WrongCount),
    }
}

// Whether the cell's own element is a component of one.
fn component_call(
    alloc: Global,
    space: &Space,
    maps: &mut BoundMaps,
    cube: u32,
    arguments: &[Tree],
) -> Result<Boxed<Formula>, BindCause>
    requires cube { cube < length space.now.cubes }
    requires maps { AreMapsIn space.now maps.old }
    ensures answers { Answers (component_call space.now cube arguments.now) result }
    ensures maps { AreMapsIn space.now maps.new }
{
    match arguments {
        [dim, of, element] => {
            let own = own_axis(alloc, space, cube, dim, of)?;
            let parent = element_at(alloc, space, cube, own, element)?;
            let function = ElementFunction::ComponentOf(parent);
            table_at(alloc, space, maps, cube, own, function)
        }
        _ => Err(BindCause::WrongCount),
    }
}

// An attribute of the cell's own element, as a number.
fn attribute_call(
    alloc: Global,
    space: &Space,
    maps: &mut BoundMaps,
    cube: u32,
    arguments: &[Tree],
) -> Result<Boxed<Formula>, BindCause>
    requires cube { cube < length space.now.cubes }
    requires maps { AreMapsIn space.now maps.old }
    ensures answers { Answers (attribute_call space.now cube arguments.now) result }
    ensures maps { AreMapsIn space.now maps.new }
{
    match arguments {
        [dim, of, name] => {
            let own = own_axis(alloc, space, cube, dim, of)?;
            let attribute = attribute_at(alloc, space, cube, own, name)?;
            let function = ElementFunction::Attribute(attribute);
            table_at(alloc, space, maps, cube, own, function)
        }
        _ => Err(BindCause::WrongCount),
    }
}

/// What a function of the cell's own element means with these arguments.
#[tactic(auto, unfolding(crate::specs::OwnNumbers::own_call))]
pub(crate) fn own_call(
    alloc: Global,
    space: &Space,
    maps: &mut BoundMaps,
    cube: u32,
    function: OwnFunction,
    arguments: &[Tree],
) -> Result<Boxed<Formula>, BindCause>
    requires cube { cube < length space.now.cubes }
    requires maps { AreMapsIn space.now maps.old }
    ensures answers { Answers (own_call space.now cube function arguments.now) result }
    ensures maps { AreMapsIn space.now maps.new }
{
    match function {
        OwnFunction::Place => {
            let own = plain_place(alloc, space, cube, arguments)?;
            table_at(alloc, space, maps, cube, own, ElementFunction::Place)
        }
        OwnFunction::Level => {
            let own = plain_place(alloc, space, cube, arguments)?;
            table_at(alloc, space, maps, cube, own, ElementFunction::Level)
        }
        OwnFunction::HasParent => upper_call(alloc, space, maps, cube, false, arguments),
        OwnFunction::HasAncestor => upper_call(alloc, space, maps, cube, true, arguments),
        OwnFunction::IsComponent => component_call(alloc, space, maps, cube, arguments),
        OwnFunction::Attribute => attribute_call(alloc, space, maps, cube, arguments),
        OwnFunction::ComponentCount => {
            let own = plain_place(alloc, space, cube, arguments)?;
            table_at(
                alloc,
                space,
                maps,
                cube,
                own,
                ElementFunction::ComponentCount,
            )
        }
        OwnFunction::ParentCount => {
            let own = plain_place(alloc, space, cube, arguments)?;
            table_at(alloc, space, maps, cube, own, ElementFunction::ParentCount)
        }
    }
}
