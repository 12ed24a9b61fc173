ghost use Rattle.std.specs.Prelude.{◌≡◌, IfOk};
ghost use Rattle.script_values.specs.Characters.{units_of};
ghost use Rattle.script_values.specs.Elements.{place_said, kind_text};
ghost use Rattle.script_values.specs.Values as values;
ghost use Rattle.script_values.specs.declared.datum.Datum.TheVariants as data_of;
ghost use Rattle.cube_fixed.specs.declared.value.Value.TheVariants as values_of;

use crate::cells::WorkCells;
use crate::characters::units;
use crate::datum::Datum;
use crate::load_reason::LoadReason;
use crate::text::Text;
use crate::wanted::amount_in;
use cube_fixed::{Money, UNIT, Value};
use lists::ListOf;
use script_bound::ElementFun;
use std::alloc::{AllocError, Global};

/// How many elements a dimension has.
#[tactic(auto, unfolding(crate::specs::Values::element_count))]
fn element_count<'a, C: WorkCells>(
    alloc: Global,
    names: &[Text<'_>],
    cells: &mut C,
) -> Result<Result<Datum<'a>, LoadReason>, AllocError>
    ensures value { IfOk result (λ answer. answer ≡ values.element_count (C.store cells.old) names.now) }
    ensures store { C.store cells.new ≡ C.store cells.old }
    ensures writes { C.writes cells.new ≡ C.writes cells.old }
{
    let [dimension] = names else {
        return Ok(Err(LoadReason::UnknownName));
    };
    match cells.element_count(alloc, dimension.as_slice())? {
        Ok(count) => Ok(Ok(Datum::Number(units(count)))),
        Err(reason) => Ok(Err(reason)),
    }
}

/// The place of an element, from 1; 0 where there is none.
#[tactic(auto, unfolding(crate::specs::Values::element_place))]
fn element_place<'a, C: WorkCells>(
    alloc: Global,
    names: &[Text<'_>],
    cells: &mut C,
) -> Result<Result<Datum<'a>, LoadReason>, AllocError>
    ensures value { IfOk result (λ answer. answer ≡ values.element_place (C.store cells.old) names.now) }
    ensures store { C.store cells.new ≡ C.store cells.old }
    ensures writes { C.writes cells.new ≡ C.writes cells.old }
{
    let [dimension, element] = names else {
        return Ok(Err(LoadReason::UnknownName));
    };
    match cells.element_place(alloc, dimension.as_slice(), element.as_slice())? {
        Ok(place) => Ok(Ok(Datum::Number(units(place.unwrap_or(0))))),
        Err(reason) => Ok(Err(reason)),
    }
}

/// What is said of a leaf, of a consolidated element, and where there is no element.
fn kind_text<'a>(leaf: Option<bool>) -> Text<'a>
    ensures { result ≡ kind_text leaf }
{
    match leaf {
        Some(true) => Text::borrowed(b"N"),
        Some(false) => Text::borrowed(b"C"),
        None => Text::borrowed(b""),
    }
}

/// Whether an element is a leaf, in a letter.
#[tactic(auto, unfolding(crate::specs::Values::element_kind))]
fn element_kind<'a, C: WorkCells>(
    alloc: Global,
    names: &[Text<'_>],
    cells: &mut C,
) -> Result<Result<Datum<'a>, LoadReason>, AllocError>
    ensures value { IfOk result (λ answer. answer ≡ values.element_kind (C.store cells.old) names.now) }
    ensures store { C.store cells.new ≡ C.store cells.old }
    ensures writes { C.writes cells.new ≡ C.writes cells.old }
{
    let [dimension, element] = names else {
        return Ok(Err(LoadReason::UnknownName));
    };
    match cells.is_leaf_element(alloc, dimension.as_slice(), element.as_slice())? {
        Ok(leaf) => Ok(Ok(Datum::Text(kind_text(leaf)))),
        Err(reason) => Ok(Err(reason)),
    }
}

/// An element's text of an attribute, where there is such an element.
#[tactic(auto, unfolding(crate::specs::Values::attribute))]
fn attribute<C: WorkCells>(
    alloc: Global,
    names: &[Text<'_>],
    cells: &mut C,
) -> Result<Result<ListOf<u8>, LoadReason>, AllocError>
    ensures value { IfOk result (λ answer. answer ≡ values.attribute (C.store cells.old) names.now) }
    ensures store { C.store cells.new ≡ C.store cells.old }
    ensures writes { C.writes cells.new ≡ C.writes cells.old }
{
    let [dimension, element, name] = names else {
        return Ok(Err(LoadReason::UnknownName));
    };
    let (dimension, element) = (dimension.as_slice(), element.as_slice());
    match cells.attribute(alloc, dimension, element, name.as_slice())? {
        Ok(Some(text)) => Ok(Ok(text)),
        Ok(None) => Ok(Err(LoadReason::UnknownName)),
        Err(reason) => Ok(Err(reason)),
    }
}

/// 1 where the second element lies below the first one, else 0; both have to be there.
#[tactic(auto, unfolding(crate::specs::Values::is_ancestor))]
fn is_ancestor<'a, C: WorkCells>(
    alloc: Global,
    names: &[Text<'_>],
    cells: &mut C,
) -> Result<Result<Datum<'a>, LoadReason>, AllocError>
    ensures value { IfOk result (λ answer. answer ≡ values.is_ancestor (C.store cells.old) names.now) }
    ensures store { C.store cells.new ≡ C.store cells.old }
    ensures writes { C.writes cells.new ≡ C.writes cells.old }
{
    let [dimension, above, element] = names else {
        return Ok(Err(LoadReason::UnknownName));
    };
    let (above, element) = (above.as_slice(), element.as_slice());
    match cells.is_ancestor(alloc, dimension.as_slice(), above, element)? {
        Ok(Some(true)) => Ok(Ok(Datum::Number(units(1)))),
        Ok(Some(false)) => Ok(Ok(Datum::Number(units(0)))),
        Ok(None) => Ok(Err(LoadReason::UnknownName)),
        Err(reason) => Ok(Err(reason)),
    }
}

fn text_given<'a>(given: Result<ListOf<u8>, LoadReason>) -> Result<Datum<'a>, LoadReason>
    ensures { result ≡ values.done (λ bytes. data_of.Text bytes) given }
{
    let text = given?;
    Ok(Datum::Text(Text::owned(text.into_vec())))
}

fn number_given<'a>(given: Result<ListOf<u8>, LoadReason>) -> Result<Datum<'a>, LoadReason>
    ensures { result ≡ values.done (λ value. data_of.Number value) (values.taken values.amount_in given) }
{
    let text = given?;
    let value = amount_in(text.as_slice())?;
    Ok(Datum::Number(value))
}

/// What a function of a dimension and its elements gives for these texts.
pub(crate) fn asked<'a, C: WorkCells>(
    alloc: Global,
    function: ElementFun,
    names: &[Text<'_>],
    cells: &mut C,
) -> Result<Result<Datum<'a>, LoadReason>, AllocError>
    ensures value { IfOk result (λ answer. answer ≡ values.asked (C.store cells.old) function names.now) }
    ensures store { C.store cells.new ≡ C.store cells.old }
    ensures writes { C.writes cells.new ≡ C.writes cells.old }
{
    match function {
        ElementFun::Count => element_count(alloc, names, cells),
        ElementFun::Place => element_place(alloc, names, cells),
        ElementFun::Kind => element_kind(alloc, names, cells),
        ElementFun::Text => Ok(text_given(attribute(alloc, names, cells)?)),
        ElementFun::Number => Ok(number_given(attribute(alloc, names, cells)?)),
        ElementFun::IsAncestor => is_ancestor(alloc, names, cells),
    }
}

/// The place that so many millionths say; 0 where they aren't whole units above 0.
fn whole_place(number: Money) -> usize
    ensures { result ≡ place_said (values_of.Num number) }
{
    let millionths = number.millionths();
    if millionths < 0 {
        return 0;
    }
    let size = millionths.unsigned_abs();
    if size % UNIT == 0 {
        (size / UNIT) as usize
    } else {
        0
    }
}

fn place_said(value: Value) -> usize
    ensures { result ≡ place_said value }
{
    match value {
        Value::Num(number) => whole_place(number),
        Value::Over => 0,
    }
}

/// The name of the element at a place of a dimension; empty where there is none.
fn named<'a, C: WorkCells>(
    alloc: Global,
    dimension: &[u8],
    place: Value,
    cells: &mut C,
) -> Result<Result<Datum<'a>, LoadReason>, AllocError>
    ensures value { IfOk result (λ answer. answer ≡ values.named (C.store cells.old) dimension.now place) }
    ensures store { C.store cells.new ≡ C.store cells.old }
    ensures writes { C.writes cells.new ≡ C.writes cells.old }
{
    match cells.element_name(alloc, dimension, place_said(place))? {
        Ok(Some(name)) => Ok(Ok(Datum::Text(Text::owned(name.into_vec())))),
        Ok(None) => Ok(Ok(Datum::Text(Text::borrowed(b"")))),
        Err(reason) => Ok(Err(reason)),
    }
}

/// The same of operands, or the first reason why one isn't there.
pub(crate) fn named_at<'a, C: WorkCells>(
    alloc: Global,
    dimension: Result<Text<'a>, LoadReason>,
    place: Result<Value, LoadReason>,
    cells: &mut C,
) -> Result<Result<Datum<'a>, LoadReason>, AllocError>
    ensures value { IfOk result (λ answer. answer ≡ values.taken (λ answer. answer)
        (values.one_and_other (values.named (C.store cells.old)) dimension.entry place)) }
    ensures store { C.store cells.new ≡ C.store cells.old }
    ensures writes { C.writes cells.new ≡ C.writes cells.old }
{
    match (dimension, place) {
        (Ok(dimension), Ok(place)) => named(alloc, dimension.as_slice(), place, cells),
        (Ok(_), Err(reason)) => Ok(Err(reason)),
        (Err(reason), _) => Ok(Err(reason)),
    }
}

/// 1 where a cell is open, else 0.
#[tactic(auto, unfolding(crate::specs::Values::updateable))]
pub(crate) fn updateable<'a, C: WorkCells>(
    alloc: Global,
    names: &[Text<'_>],
    cells: &mut C,
) -> Result<Result<Datum<'a>, LoadReason>, AllocError>
    ensures value { IfOk result (λ answer. answer ≡ values.updateable (C.store cells.old) names.now) }
    ensures store { C.store cells.new ≡ C.store cells.old }
    ensures writes { C.writes cells.new ≡ C.writes cells.old }
{
    let [cube, elements @ ..] = names else {
        return Ok(Err(LoadReason::UnknownName));
    };
    if cells.is_updateable(alloc, cube.as_slice(), elements)? {
        Ok(Ok(Datum::Number(units(1))))
    } else {
        Ok(Ok(Datum::Number(units(0))))
    }
}
