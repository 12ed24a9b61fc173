ghost use Rattle.std.specs.Prelude.{◌≡◌, ◌<◌, ℕ, Ok, IfOk, IfSome, length};
ghost use Rattle.cube_space.specs.Layout.{axes};
ghost use Rattle.bind_areas.specs.Meaning.{Answers};
ghost use Rattle.bind_arguments.specs.Maps.{AreMapsIn};
ghost use Rattle.bind_arguments.specs.Numbers.{is_within_at};
ghost use Rattle.rule_bind.specs.Texts.{kind_side, attribute_side, call_side, name_side, side_of, shared_place};
ghost use Rattle.rule_bind.specs.Texts.{compared, texts_truth};

use crate::boxes::boxed;
use crate::own_numbers::{attribute_at, own_axis, plain_place, table_at};
use crate::sureness::compare;
use bind_areas::BindCause;
use bind_arguments::{BoundMaps, ElementFunction, ElementText};
use cube_fixed::Money;
use cube_space::{Space, axis_called};
use dim_name::Name;
use lists::ListOf;
use rule_laws::{Formula, Rel, Truth};
use rule_tree::Tree;
use sqlite_items::Boxed;
use std::alloc::Global;

// `DTYPE` of the cell's own element.
fn kind_side(
    alloc: Global,
    space: &Space,
    cube: u32,
    arguments: &[Tree],
) -> Result<(Option<u32>, ElementText), BindCause>
    requires { cube < length space.now.cubes }
    ensures answers { Answers (kind_side space.now cube arguments.now) result }
    ensures within { IfOk result (λ side. IfSome side.0 (λ place. place < length (axes space.now cube))) }
{
    let own = plain_place(alloc, space, cube, arguments)?;
    Ok((Some(own), ElementText::Kind))
}

// `ATTRS` of the cell's own element.
fn attribute_side(
    alloc: Global,
    space: &Space,
    cube: u32,
    arguments: &[Tree],
) -> Result<(Option<u32>, ElementText), BindCause>
    requires { cube < length space.now.cubes }
    ensures answers { Answers (attribute_side space.now cube arguments.now) result }
    ensures within { IfOk result (λ side. IfSome side.0 (λ place. place < length (axes space.now cube))) }
{
    match arguments {
        [dim, of, name] => {
            let own = own_axis(alloc, space, cube, dim, of)?;
            let attribute = attribute_at(alloc, space, cube, own, name)?;
            Ok((Some(own), ElementText::Attribute(attribute)))
        }
        _ => Err(BindCause::WrongCount),
    }
}

// A function that is a text.
fn call_side(
    alloc: Global,
    space: &Space,
    cube: u32,
    word: &[u8],
    arguments: &[Tree],
) -> Result<(Option<u32>, ElementText), BindCause>
    requires { cube < length space.now.cubes }
    ensures answers { Answers (call_side space.now cube word.now arguments.now) result }
    ensures within { IfOk result (λ side. IfSome side.0 (λ place. place < length (axes space.now cube))) }
{
    if word == b"DTYPE".as_slice() {
        kind_side(alloc, space, cube, arguments)
    } else if word == b"ATTRS".as_slice() {
        attribute_side(alloc, space, cube, arguments)
    } else {
        Err(BindCause::Unsupported)
    }
}

// The name of the cell's own element.
fn name_side(space: &Space, cube: u32, dim: &Name) -> Result<(Option<u32>, ElementText), BindCause>
    requires { cube < length space.now.cubes }
    ensures answers { Answers (name_side space.now cube dim.now) result }
    ensures within { IfOk result (λ side. IfSome side.0 (λ place. place < length (axes space.now cube))) }
{
    match axis_called(space, cube, dim) {
        Some(place) => Ok((Some(place), ElementText::Name)),
        None => Err(BindCause::UnknownName),
    }
}

// The text that a formula is, and the place of the dimension whose element has it, if that isn't the same for all.
#[tactic(auto, unfolding(crate::specs::Texts::side_of))]
fn side_of(
    alloc: Global,
    space: &Space,
    cube: u32,
    tree: &Tree,
) -> Result<(Option<u32>, ElementText), BindCause>
    requires { cube < length space.now.cubes }
    ensures answers { Answers (side_of space.now cube tree.now) result }
    ensures within { IfOk result (λ side. IfSome side.0 (λ place. place < length (axes space.now cube))) }
{
    match tree {
        Tree::Text(bytes) => {
            let bytes = Vec::from_slice(alloc, bytes.as_slice())?;
            Ok((None, ElementText::Fixed(ListOf::new(bytes))))
        }
        Tree::Current(dim) => name_side(space, cube, dim),
        Tree::Call(word, arguments) => {
            call_side(alloc, space, cube, word.as_slice(), arguments.as_slice())
        }
        _ => Err(BindCause::Unsupported),
    }
}

// The place of the one dimension whose elements have two texts.
fn shared_place(text: Option<u32>, other: Option<u32>) -> Result<u32, BindCause>
    ensures answers { Answers (shared_place text other) result }
    ensures within { (n : ℕ) → IfSome text (λ place. place < n) → IfSome other (λ place. place < n)
        → IfOk result (λ place. place < n) }
{
    match (text, other) {
        (Some(place), Some(other)) => {
            if other == place {
                Ok(place)
            } else {
                Err(BindCause::Unsupported)
            }
        }
        (Some(place), None) => Ok(place),
        (None, Some(place)) => Ok(place),
        (None, None) => Err(BindCause::Unsupported),
    }
}

// The comparison of two texts of the elements of the dimension at a place.
fn compared(
    alloc: Global,
    space: &Space,
    maps: &mut BoundMaps,
    cube: u32,
    sets: &[Option<ListOf<u32>>],
    rel: Rel,
    place: u32,
    function: ElementFunction,
) -> Result<Boxed<Truth>, BindCause>
    requires cube { cube < length space.now.cubes }
    requires place { place < length (axes space.now cube) }
    requires within { is_within_at space.now cube place function }
    requires maps { AreMapsIn space.now maps.old }
    ensures answers { Answers (Ok (compared space.now cube sets.now rel place function)) result }
    ensures maps { AreMapsIn space.now maps.new }
{
    let table = table_at(alloc, space, maps, cube, place, function)?;
    let one = boxed(alloc, Formula::Number(Money::of_units(1)))?;
    compare(alloc, space, cube, sets, rel, table, one)
}

/// What a comparison of two texts means.
#[tactic(auto, unfolding(crate::specs::Texts::texts_truth))]
pub(crate) fn texts_truth(
    alloc: Global,
    space: &Space,
    maps: &mut BoundMaps,
    cube: u32,
    sets: &[Option<ListOf<u32>>],
    rel: Rel,
    left: &Tree,
    right: &Tree,
) -> Result<Boxed<Truth>, BindCause>
    requires cube { cube < length space.now.cubes }
    requires maps { AreMapsIn space.now maps.old }
    ensures answers { Answers (texts_truth space.now cube sets.now rel left.now right.now) result }
    ensures maps { AreMapsIn space.now maps.new }
{
    let (place, text) = side_of(alloc, space, cube, left)?;
    let (other_place, other) = side_of(alloc, space, cube, right)?;
    let place = shared_place(place, other_place)?;
    compared(
        alloc,
        space,
        maps,
        cube,
        sets,
        rel,
        place,
        ElementFunction::Same(text, other),
    )
}
