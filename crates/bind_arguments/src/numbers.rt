ghost use Rattle.std.specs.Prelude.{◌≡◌, ◌<◌, length, IfOk};
ghost use Rattle.cube_fixed.specs.Text.{number_of, reading_of};
ghost use Rattle.dim_core.specs.Outline.{level, attribute_of};
ghost use Rattle.rule_laws.specs.Tables.{mark_numbers};
ghost use Rattle.bind_arguments.specs.declared.element_function.ElementFunction.TheVariants as functions;
ghost use Rattle.bind_arguments.specs.Numbers.{is_within, number_for, numbers_over, read_or_zero, kind_text, text_for};

use crate::element_function::ElementFunction;
use crate::element_text::ElementText;
use crate::marks::{components_of, elements_below};
use crate::parents::parents_over;
use cube_fixed::{Money, read};
use dim_core::Dimension;
use dim_name::{Name, is_same_name};
use rule_laws::ElementTable;
use std::alloc::{AllocError, Global};

/// The numbers that a function gives the elements of a dimension.
pub(crate) fn numbers_over(
    alloc: Global,
    dimension: &Dimension,
    function: &ElementFunction,
) -> Result<ElementTable, AllocError>
    requires { is_within dimension.now function.now }
    ensures { IfOk result (λ table. table ≡ numbers_over dimension.now function.now) }
{
    match function {
        ElementFunction::Place => ElementTable::new(alloc, places(alloc, dimension)?),
        ElementFunction::Level => ElementTable::new(alloc, levels(alloc, dimension)?),
        ElementFunction::ComponentOf(parent) => memberships(alloc, dimension, *parent),
        ElementFunction::Below(above) => descents(alloc, dimension, *above),
        ElementFunction::Attribute(name) => {
            ElementTable::new(alloc, attributes(alloc, dimension, name)?)
        }
        ElementFunction::ComponentCount => {
            ElementTable::new(alloc, component_counts(alloc, dimension)?)
        }
        ElementFunction::ParentCount => ElementTable::new(alloc, parent_counts(alloc, dimension)?),
        ElementFunction::Same(one, other) => {
            ElementTable::marked(alloc, comparisons(alloc, dimension, one, other)?)
        }
    }
}

// The place of each element, from 1.
fn places(alloc: Global, dimension: &Dimension) -> Result<Vec<Money>, AllocError>
    ensures { IfOk result (λ numbers. numbers.items ≡ numbers_over dimension.now functions.Place) }
{
    let mut numbers = Vec::with_capacity(alloc, dimension.len() as usize)?;
    for element in 0..dimension.len() {
        numbers.push(Money::of_units(element + 1))?;
    }
    Ok(numbers)
}

// The level of each element.
fn levels(alloc: Global, dimension: &Dimension) -> Result<Vec<Money>, AllocError>
    ensures { IfOk result (λ numbers. numbers.items ≡ numbers_over dimension.now functions.Level) }
{
    let mut numbers = Vec::with_capacity(alloc, dimension.len() as usize)?;
    for element in 0..dimension.len() {
        numbers.push(Money::of_units(dimension.level(element)))?;
    }
    Ok(numbers)
}

// A text as a number; 0 where it is none.
fn read_or_zero(text: &[u8]) -> Money
    ensures { result ≡ read_or_zero (reading_of (number_of text.now)) }
{
    match read(text) {
        Ok(number) => number,
        Err(_) => Money::ZERO,
    }
}

// The attribute of each element, as a number.
fn attributes(alloc: Global, dimension: &Dimension, name: &Name) -> Result<Vec<Money>, AllocError>
    ensures { IfOk result (λ numbers. numbers.items ≡ numbers_over dimension.now (functions.Attribute name.now)) }
{
    let mut numbers = Vec::with_capacity(alloc, dimension.len() as usize)?;
    for element in 0..dimension.len() {
        numbers.push(read_or_zero(dimension.attribute(element, name)))?;
    }
    Ok(numbers)
}

// How many components each element has.
fn component_counts(alloc: Global, dimension: &Dimension) -> Result<Vec<Money>, AllocError>
    ensures { IfOk result (λ numbers. numbers.items ≡ numbers_over dimension.now functions.ComponentCount) }
{
    let mut numbers = Vec::with_capacity(alloc, dimension.len() as usize)?;
    for element in 0..dimension.len() {
        let count = dimension.components(element).len() as u32;
        numbers.push(Money::of_units(count))?;
    }
    Ok(numbers)
}

// How many consolidations have each element as a component.
fn parent_counts(alloc: Global, dimension: &Dimension) -> Result<Vec<Money>, AllocError>
    ensures { IfOk result (λ numbers. numbers.items ≡ numbers_over dimension.now functions.ParentCount) }
{
    let parents = parents_over(alloc, dimension)?;
    let mut numbers = Vec::with_capacity(alloc, parents.len())?;
    for element in 0..dimension.len() {
        let own = parents[element as usize].as_slice();
        numbers.push(Money::of_units(own.len() as u32))?;
    }
    Ok(numbers)
}

// A text of an element.
fn text_of<'a>(dimension: &'a Dimension, text: &'a ElementText, element: u32) -> &'a [u8]
    requires { element < length dimension.now.elements }
    ensures { result.now ≡ text_for dimension.now text.now element }
{
    match text {
        ElementText::Fixed(bytes) => bytes.as_slice(),
        ElementText::Name => dimension.name_of(element).shown(),
        ElementText::Kind => kind_text(dimension.is_leaf(element)),
        ElementText::Attribute(name) => dimension.attribute(element, name),
    }
}

// The letter of a leaf or of a consolidation.
fn kind_text(leaf: bool) -> &'static [u8]
    ensures { result.now ≡ kind_text leaf }
{
    if leaf {
        b"N".as_slice()
    } else {
        b"C".as_slice()
    }
}

// Of which elements both texts are the same.
fn comparisons(
    alloc: Global,
    dimension: &Dimension,
    one: &ElementText,
    other: &ElementText,
) -> Result<Vec<bool>, AllocError>
    ensures { IfOk result (λ marks. mark_numbers marks.items
        ≡ numbers_over dimension.now (functions.Same one.now other.now)) }
{
    let mut marks = Vec::with_capacity(alloc, dimension.len() as usize)?;
    for element in 0..dimension.len() {
        let same = is_same_name(
            text_of(dimension, one, element),
            text_of(dimension, other, element),
        );
        marks.push(same)?;
    }
    Ok(marks)
}

// 1 for each component of this element, 0 for the others.
fn memberships(
    alloc: Global,
    dimension: &Dimension,
    parent: u32,
) -> Result<ElementTable, AllocError>
    requires { parent < length dimension.now.elements }
    ensures { IfOk result (λ table. table ≡ numbers_over dimension.now (functions.ComponentOf parent)) }
{
    let marks = components_of(alloc, dimension, parent)?;
    let table = ElementTable::marked(alloc, marks)?;
    Ok(table)
}

// 1 for each element below this one, 0 for the others.
fn descents(alloc: Global, dimension: &Dimension, above: u32) -> Result<ElementTable, AllocError>
    requires { above < length dimension.now.elements }
    ensures { IfOk result (λ table. table ≡ numbers_over dimension.now (functions.Below above)) }
{
    let marks = elements_below(alloc, dimension, above)?;
    let table = ElementTable::marked(alloc, marks)?;
    Ok(table)
}
