ghost use Rattle.std.specs.Prelude.{◌≡◌, ◌<◌, Ok, length, get_or};
ghost use Rattle.bind_areas.specs.Meaning.{Answers};
ghost use Rattle.rule_bind.specs.Sureness.{elements_in, is_leaf_of, first_leaf, holds, is_alike, are_alike, number_in};
ghost use Rattle.rule_bind.specs.Sureness.{number_at, table_side, test_with, side, comparison};

use crate::boxes::boxed;
use bind_areas::BindCause;
use cube_fixed::{Money, Value};
use cube_space::{Space, axis, axis_count};
use dim_core::Dimension;
use lists::ListOf;
use rule_laws::{ElementTable, Formula, Rel, Truth};
use sqlite_items::Boxed;
use std::alloc::Global;

/// A comparison of the numbers of a table with one number.
#[derive(Clone, Copy)]
pub struct Test {
    pub rel: Rel,
    pub number: Money,
    /// Whether the table is the left side.
    pub is_left: bool,
}

// Whether an element is a leaf of a dimension.
fn is_leaf_of(dim: &Dimension, element: u32) -> bool
    ensures { result ≡ is_leaf_of dim.now element }
{
    element < dim.len() && dim.is_leaf(element)
}

// How many elements a set has.
#[tactic(auto, using(crate::proofs::InSets::ranges))]
fn count_in(dim: &Dimension, set: &Option<ListOf<u32>>) -> usize
    ensures { result ≡ length (elements_in dim.now set.now) }
{
    match set {
        Some(listed) => listed.as_slice().len(),
        None => dim.len() as usize,
    }
}

// The element of a set at a place of its list.
#[tactic(auto, using(crate::proofs::InSets::ranges))]
fn element_in(dim: &Dimension, set: &Option<ListOf<u32>>, index: usize) -> u32
    requires { index < length (elements_in dim.now set.now) }
    ensures { result ≡ get_or (elements_in dim.now set.now) index 0 }
{
    // a dimension says of itself that it has no more elements than their numbers can tell
    let _count = dim.len();
    match set {
        Some(listed) => listed.as_slice()[index],
        None => index as u32,
    }
}

// The first leaf element of a set.
#[tactic(auto, using(crate::proofs::InSets::find_next))]
fn first_leaf(dim: &Dimension, set: &Option<ListOf<u32>>) -> Option<u32>
    ensures { result ≡ first_leaf dim.now set.now }
{
    'each: for index in 0..count_in(dim, set) {
        let element = element_in(dim, set, index);
        if is_leaf_of(dim, element) {
            return Some(element);
        }
    }
    None
}

// Whether a comparison holds for a number of the table.
fn holds(test: &Test, number: Money) -> bool
    ensures { result ≡ holds test.now number }
{
    let number = Value::Num(number);
    let other = Value::Num(test.number);
    if test.is_left {
        test.rel.holds(number, other)
    } else {
        test.rel.holds(other, number)
    }
}

// Whether a comparison has this truth for an element, if that is a leaf.
fn is_alike(dim: &Dimension, test: &Test, table: &ElementTable, truth: bool, element: u32) -> bool
    ensures { result ≡ is_alike dim.now test.now table.now truth element }
{
    !is_leaf_of(dim, element) || holds(test, table.get(element as usize)) == truth
}

// Whether a comparison is the same for all leaf elements of a set as for this number. It ends with the first that is
// otherwise.
#[tactic(auto, using(crate::proofs::InSets::all_next))]
fn are_alike(
    dim: &Dimension,
    set: &Option<ListOf<u32>>,
    test: &Test,
    table: &ElementTable,
    number: Money,
) -> bool
    ensures { result ≡ are_alike dim.now set.now test.now table.now number }
{
    let truth = holds(test, number);
    'each: for index in 0..count_in(dim, set) {
        if !is_alike(dim, test, table, truth, element_in(dim, set, index)) {
            return false;
        }
    }
    true
}

// The number of the first leaf element of a set, where a comparison is the same for all.
#[tactic(auto, unfolding(crate::specs::Sureness::number_in))]
fn number_in(
    dim: &Dimension,
    set: &Option<ListOf<u32>>,
    test: &Test,
    table: &ElementTable,
) -> Option<Money>
    ensures { result ≡ number_in dim.now set.now test.now table.now }
{
    let element = first_leaf(dim, set)?;
    let number = table.get(element as usize);
    if are_alike(dim, set, test, table, number) {
        Some(number)
    } else {
        None
    }
}

// The same by the dimension at a place of a cube.
#[tactic(auto, unfolding(crate::specs::Sureness::number_at))]
fn number_at(
    space: &Space,
    cube: u32,
    sets: &[Option<ListOf<u32>>],
    test: &Test,
    place: u32,
    table: &ElementTable,
) -> Option<Money>
    requires { cube < length space.now.cubes }
    ensures { result ≡ number_at space.now cube sets.now test.now place table.now }
{
    if axis_count(space, cube) <= place {
        return None;
    }
    let set = sets.get(place as usize)?;
    number_in(axis(space, cube, place), set, test, table)
}

// A table, or the number that stands in its place.
fn table_side(
    space: &Space,
    cube: u32,
    sets: &[Option<ListOf<u32>>],
    test: &Test,
    place: u32,
    table: ElementTable,
) -> Formula
    requires { cube < length space.now.cubes }
    ensures { result ≡ table_side space.now cube sets.now test.now place table }
{
    match number_at(space, cube, sets, test, place, &table) {
        Some(number) => Formula::Number(number),
        None => Formula::Table(place, table),
    }
}

// The comparison of a table with a formula, where that is a number.
fn test_with(rel: Rel, is_left: bool, formula: &Formula) -> Option<Test>
    ensures { result ≡ test_with rel is_left formula.now }
{
    match formula {
        Formula::Number(number) => {
            let number = *number;
            Some(Test {
                rel,
                number,
                is_left,
            })
        }
        _ => None,
    }
}

// A side of a comparison as it is bound.
#[tactic(auto, unfolding(crate::specs::Sureness::side))]
fn side(
    space: &Space,
    cube: u32,
    sets: &[Option<ListOf<u32>>],
    test: Option<Test>,
    formula: Formula,
) -> Formula
    requires { cube < length space.now.cubes }
    ensures { result ≡ side space.now cube sets.now test formula }
{
    let Some(test) = test else {
        return formula;
    };
    match formula {
        Formula::Table(place, table) => table_side(space, cube, sets, &test, place, table),
        other => other,
    }
}

// A comparison of two formulas. Where one is a table and the other a number, and the comparison is the same for all
// leaf elements that these sets of an area have in the table's dimension, the number of the first stands in its place.
#[tactic(auto, unfolding(crate::specs::Sureness::comparison))]
fn comparison(
    space: &Space,
    cube: u32,
    sets: &[Option<ListOf<u32>>],
    rel: Rel,
    left: Formula,
    right: Formula,
) -> Truth
    requires { cube < length space.now.cubes }
    ensures { result ≡ comparison space.now cube sets.now rel left right }
{
    let left_test = test_with(rel, true, &right);
    let right_test = test_with(rel, false, &left);
    let left = side(space, cube, sets, left_test, left);
    let right = side(space, cube, sets, right_test, right);
    Truth::Compare(rel, left, right)
}

/// A comparison of two formulas as it is bound.
pub(crate) fn compare(
    alloc: Global,
    space: &Space,
    cube: u32,
    sets: &[Option<ListOf<u32>>],
    rel: Rel,
    left: Boxed<Formula>,
    right: Boxed<Formula>,
) -> Result<Boxed<Truth>, BindCause>
    requires { cube < length space.now.cubes }
    ensures { Answers (Ok (comparison space.now cube sets.now rel left right)) result }
{
    let truth = comparison(
        space,
        cube,
        sets,
        rel,
        left.into_inner(),
        right.into_inner(),
    );
    boxed(alloc, truth)
}
