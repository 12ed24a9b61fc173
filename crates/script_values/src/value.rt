ghost use Rattle.std.specs.Prelude.{◌≡◌, ◌&&◌, ◌||◌, map, IfOk};
ghost use Rattle.script_values.specs.Values as values;
ghost use Rattle.script_values.specs.Values.{value_of, cell_value, each_text, done, taken, amount, operated, compared};
ghost use Rattle.script_values.specs.Values.{asked, element_name, updateable};
ghost use Rattle.script_values.specs.Values.{cut, written};
ghost use Rattle.script_values.specs.declared.datum.Datum.TheVariants as data_of;

use crate::cells::WorkCells;
use crate::datum::Datum;
use crate::elements::{asked, named_at, updateable};
use crate::load_reason::LoadReason;
use crate::operands::{
    both_hold, comparison, function, joined, number, number_in, one_holds, operation, opposite,
    other, same, text_of, truth,
};
use crate::padding::written;
use crate::sight::Sight;
use crate::text::Text;
use crate::text_functions::{altered, count_of, cut, place_of};
use crate::wanted::{as_amount, as_text, as_truth};
use cube_fixed::Value;
use lists::ListOf;
use rule_laws::{Op, Rel};
use script_bound::{ElementFun, Term};
use sqlite_items::Boxed;
use std::alloc::{AllocError, Global};

/// The value of the cell of a cube and elements.
pub fn cell_value<C: WorkCells>(
    alloc: Global,
    names: &[Text<'_>],
    cells: &mut C,
) -> Result<Result<Value, LoadReason>, AllocError>
    ensures value { IfOk result (λ answer. answer
        ≡ cell_value (C.store cells.old) (C.writes cells.old) names.now) }
    ensures store { C.store cells.new ≡ C.store cells.old }
    ensures writes { C.writes cells.new ≡ C.writes cells.old }
{
    match names {
        [cube, elements @ ..] => cells.get(alloc, cube.as_slice(), elements),
        [] => Ok(Err(LoadReason::UnknownName)),
    }
}

/// What an expression gives, or the first reason why it gives nothing. Operands are evaluated from left to right, and
/// each is taken as a number, a text or a truth before the next.
///
/// A text is copied only where it is put together.
#[cycle(values)]
pub fn value_of<'a, C: WorkCells>(
    alloc: Global,
    term: &'a Term,
    sight: &Sight<'a>,
    cells: &mut C,
) -> Result<Result<Datum<'a>, LoadReason>, AllocError>
    ensures value { IfOk result (λ answer. answer
        ≡ value_of term.now sight.now (C.store cells.old) (C.writes cells.old)) }
    ensures store { C.store cells.new ≡ C.store cells.old }
    ensures writes { C.writes cells.new ≡ C.writes cells.old }
{
    match term {
        Term::Number(number) => Ok(Ok(Datum::Number(Value::Num(*number)))),
        Term::Text(bytes) => Ok(Ok(Datum::Text(Text::borrowed(bytes.as_slice())))),
        Term::Variable(place) => Ok(sight.variable(*place)),
        Term::Column(place) => Ok(sight.column(*place)),
        Term::Get(names) => Ok(number(value_in_cell(alloc, names.as_slice(), sight, cells)?)),
        Term::Amount(fun, inner) => {
            Ok(number(function(*fun, amount_of(alloc, inner.get(), sight, cells)?)))
        }
        Term::Amounts(op, left, right) => {
            Ok(number(operated(alloc, *op, left, right, sight, cells)?))
        }
        Term::Compare(rel, left, right) => {
            Ok(truth(compared(alloc, *rel, left, right, sight, cells)?))
        }
        Term::ToNumber(inner) => Ok(number_in(value_of(alloc, inner.get(), sight, cells)?)),
        Term::ToText(inner) => text_of(alloc, amount_of(alloc, inner.get(), sight, cells)?),
        Term::Altered(fun, inner) => {
            altered(alloc, *fun, text_at(alloc, inner.get(), sight, cells)?)
        }
        Term::Long(inner) => Ok(count_of(text_at(alloc, inner.get(), sight, cells)?)),
        Term::Scan(part, inner) => Ok(place_of(two_texts(alloc, part, inner, sight, cells)?)),
        Term::Subst(inner, start, count) => cut_at(alloc, inner, start, count, sight, cells),
        Term::Str(inner, width, decimals) => {
            written_at(alloc, inner, width, decimals, sight, cells)
        }
        Term::Join(left, right) => joined(alloc, two_texts(alloc, left, right, sight, cells)?),
        Term::Same(left, right) => Ok(same(two_texts(alloc, left, right, sight, cells)?)),
        Term::Other(left, right) => Ok(other(two_texts(alloc, left, right, sight, cells)?)),
        Term::And(left, right) => Ok(both_hold(two_truths(alloc, left, right, sight, cells)?)),
        Term::Or(left, right) => Ok(one_holds(two_truths(alloc, left, right, sight, cells)?)),
        Term::Not(inner) => Ok(opposite(truth_of(alloc, inner.get(), sight, cells)?)),
        Term::ElementName(dimension, place) => element_name(alloc, dimension, place, sight, cells),
        Term::Element(function, names) => {
            asked_of(alloc, *function, names.as_slice(), sight, cells)
        }
        Term::IsUpdateable(names) => updateable_at(alloc, names.as_slice(), sight, cells),
    }
}

/// What an expression gives as a number. A number, a variable, a column, a cell, and what a function of a number or an
/// operation gives isn't made a datum first.
#[cycle(values)]
pub fn amount_of<'a, C: WorkCells>(
    alloc: Global,
    term: &'a Term,
    sight: &Sight<'a>,
    cells: &mut C,
) -> Result<Result<Value, LoadReason>, AllocError>
    ensures value { IfOk result (λ answer. answer
        ≡ amount (value_of term.now sight.now (C.store cells.old) (C.writes cells.old))) }
    ensures store { C.store cells.new ≡ C.store cells.old }
    ensures writes { C.writes cells.new ≡ C.writes cells.old }
{
    match term {
        Term::Number(number) => Ok(Ok(Value::Num(*number))),
        Term::Variable(place) => Ok(sight.amount(*place)),
        Term::Column(place) => Ok(sight.column_amount(*place)),
        Term::Get(names) => value_in_cell(alloc, names.as_slice(), sight, cells),
        Term::Amount(fun, inner) => {
            Ok(function(*fun, amount_of(alloc, inner.get(), sight, cells)?))
        }
        Term::Amounts(op, left, right) => operated(alloc, *op, left, right, sight, cells),
        _ => Ok(as_amount(value_of(alloc, term, sight, cells)?)),
    }
}

/// What a condition gives. A comparison of numbers isn't made a datum first.
#[cycle(values)]
pub fn truth_of<'a, C: WorkCells>(
    alloc: Global,
    term: &'a Term,
    sight: &Sight<'a>,
    cells: &mut C,
) -> Result<Result<bool, LoadReason>, AllocError>
    ensures value { IfOk result (λ answer. answer
        ≡ values.truth (value_of term.now sight.now (C.store cells.old) (C.writes cells.old))) }
    ensures store { C.store cells.new ≡ C.store cells.old }
    ensures writes { C.writes cells.new ≡ C.writes cells.old }
{
    match term {
        Term::Compare(rel, left, right) => compared(alloc, *rel, left, right, sight, cells),
        _ => Ok(as_truth(value_of(alloc, term, sight, cells)?)),
    }
}

/// What an expression gives as a text. A text or a column isn't made a datum first.
#[cycle(values)]
fn text_at<'a, C: WorkCells>(
    alloc: Global,
    term: &'a Term,
    sight: &Sight<'a>,
    cells: &mut C,
) -> Result<Result<Text<'a>, LoadReason>, AllocError>
    ensures value { IfOk result (λ answer. answer
        ≡ values.text (value_of term.now sight.now (C.store cells.old) (C.writes cells.old))) }
    ensures store { C.store cells.new ≡ C.store cells.old }
    ensures writes { C.writes cells.new ≡ C.writes cells.old }
{
    match term {
        Term::Text(bytes) => Ok(Ok(Text::borrowed(bytes.as_slice()))),
        Term::Column(place) => Ok(sight.text(*place)),
        _ => Ok(as_text(value_of(alloc, term, sight, cells)?)),
    }
}

/// What an operation on two expressions gives, the left one first. The right one is evaluated whatever the left one
/// gives.
#[cycle(values)]
#[tactic(auto, unfolding(crate::specs::Values::operated))]
fn operated<'a, C: WorkCells>(
    alloc: Global,
    op: Op,
    left: &'a Boxed<Term>,
    right: &'a Boxed<Term>,
    sight: &Sight<'a>,
    cells: &mut C,
) -> Result<Result<Value, LoadReason>, AllocError>
    ensures value { IfOk result (λ answer. answer ≡ amount
        (operated op (value_of left.now sight.now (C.store cells.old) (C.writes cells.old))
        (value_of right.now sight.now (C.store cells.old) (C.writes cells.old)))) }
    ensures datum { IfOk result (λ answer. done (λ number. data_of.Number number) answer
        ≡ operated op (value_of left.now sight.now (C.store cells.old) (C.writes cells.old))
        (value_of right.now sight.now (C.store cells.old) (C.writes cells.old))) }
    ensures store { C.store cells.new ≡ C.store cells.old }
    ensures writes { C.writes cells.new ≡ C.writes cells.old }
{
    let left = amount_of(alloc, left.get(), sight, cells)?;
    let right = amount_of(alloc, right.get(), sight, cells)?;
    Ok(operation(op, left, right))
}

/// What a comparison of two expressions gives, in the same order.
#[cycle(values)]
#[tactic(auto, unfolding(crate::specs::Values::compared))]
fn compared<'a, C: WorkCells>(
    alloc: Global,
    rel: Rel,
    left: &'a Boxed<Term>,
    right: &'a Boxed<Term>,
    sight: &Sight<'a>,
    cells: &mut C,
) -> Result<Result<bool, LoadReason>, AllocError>
    ensures value { IfOk result (λ answer. answer ≡ values.truth
        (compared rel (value_of left.now sight.now (C.store cells.old) (C.writes cells.old))
        (value_of right.now sight.now (C.store cells.old) (C.writes cells.old)))) }
    ensures datum { IfOk result (λ answer. done (λ holds. data_of.Truth holds) answer
        ≡ compared rel (value_of left.now sight.now (C.store cells.old) (C.writes cells.old))
        (value_of right.now sight.now (C.store cells.old) (C.writes cells.old))) }
    ensures store { C.store cells.new ≡ C.store cells.old }
    ensures writes { C.writes cells.new ≡ C.writes cells.old }
{
    let left = amount_of(alloc, left.get(), sight, cells)?;
    let right = amount_of(alloc, right.get(), sight, cells)?;
    Ok(comparison(rel, left, right))
}

/// What characters of a text give: the text, the place of the first one, and how many. Each is evaluated whatever those
/// before it give.
#[cycle(values)]
#[tactic(auto, unfolding(crate::specs::Values::cut))]
fn cut_at<'a, C: WorkCells>(
    alloc: Global,
    inner: &'a Boxed<Term>,
    start: &'a Boxed<Term>,
    count: &'a Boxed<Term>,
    sight: &Sight<'a>,
    cells: &mut C,
) -> Result<Result<Datum<'a>, LoadReason>, AllocError>
    ensures value { IfOk result (λ answer. answer
        ≡ cut (value_of inner.now sight.now (C.store cells.old) (C.writes cells.old))
        (value_of start.now sight.now (C.store cells.old) (C.writes cells.old))
        (value_of count.now sight.now (C.store cells.old) (C.writes cells.old))) }
    ensures store { C.store cells.new ≡ C.store cells.old }
    ensures writes { C.writes cells.new ≡ C.writes cells.old }
{
    let text = text_at(alloc, inner.get(), sight, cells)?;
    let start = amount_of(alloc, start.get(), sight, cells)?;
    let count = amount_of(alloc, count.get(), sight, cells)?;
    cut(alloc, text, start, count)
}

/// What a number gives that is written with a width and so many decimals. Each is evaluated whatever those before it
/// give.
#[cycle(values)]
#[tactic(auto, unfolding(crate::specs::Values::written))]
fn written_at<'a, C: WorkCells>(
    alloc: Global,
    inner: &'a Boxed<Term>,
    width: &'a Boxed<Term>,
    decimals: &'a Boxed<Term>,
    sight: &Sight<'a>,
    cells: &mut C,
) -> Result<Result<Datum<'a>, LoadReason>, AllocError>
    ensures value { IfOk result (λ answer. answer
        ≡ written (value_of inner.now sight.now (C.store cells.old) (C.writes cells.old))
        (value_of width.now sight.now (C.store cells.old) (C.writes cells.old))
        (value_of decimals.now sight.now (C.store cells.old) (C.writes cells.old))) }
    ensures store { C.store cells.new ≡ C.store cells.old }
    ensures writes { C.writes cells.new ≡ C.writes cells.old }
{
    let value = amount_of(alloc, inner.get(), sight, cells)?;
    let width = amount_of(alloc, width.get(), sight, cells)?;
    let decimals = amount_of(alloc, decimals.get(), sight, cells)?;
    written(alloc, value, width, decimals)
}

/// What two expressions give as texts, the left one first. The right one is evaluated whatever the left one gives.
#[cycle(values)]
fn two_texts<'a, C: WorkCells>(
    alloc: Global,
    left: &'a Boxed<Term>,
    right: &'a Boxed<Term>,
    sight: &Sight<'a>,
    cells: &mut C,
) -> Result<(Result<Text<'a>, LoadReason>, Result<Text<'a>, LoadReason>), AllocError>
    ensures left { IfOk result (λ both. both.0
        ≡ values.text (value_of left.now sight.now (C.store cells.old) (C.writes cells.old))) }
    ensures right { IfOk result (λ both. both.1
        ≡ values.text (value_of right.now sight.now (C.store cells.old) (C.writes cells.old))) }
    ensures store { C.store cells.new ≡ C.store cells.old }
    ensures writes { C.writes cells.new ≡ C.writes cells.old }
{
    let left = text_at(alloc, left.get(), sight, cells)?;
    let right = text_at(alloc, right.get(), sight, cells)?;
    Ok((left, right))
}

/// What two expressions give as truths, the left one first. The right one is evaluated whatever the left one gives.
#[cycle(values)]
fn two_truths<'a, C: WorkCells>(
    alloc: Global,
    left: &'a Boxed<Term>,
    right: &'a Boxed<Term>,
    sight: &Sight<'a>,
    cells: &mut C,
) -> Result<(Result<bool, LoadReason>, Result<bool, LoadReason>), AllocError>
    ensures left { IfOk result (λ both. both.0
        ≡ values.truth (value_of left.now sight.now (C.store cells.old) (C.writes cells.old))) }
    ensures right { IfOk result (λ both. both.1
        ≡ values.truth (value_of right.now sight.now (C.store cells.old) (C.writes cells.old))) }
    ensures store { C.store cells.new ≡ C.store cells.old }
    ensures writes { C.writes cells.new ≡ C.writes cells.old }
{
    let left = truth_of(alloc, left.get(), sight, cells)?;
    let right = truth_of(alloc, right.get(), sight, cells)?;
    Ok((left, right))
}

/// The value of the cell that expressions name.
#[cycle(values)]
fn value_in_cell<'a, C: WorkCells>(
    alloc: Global,
    names: &'a [Term],
    sight: &Sight<'a>,
    cells: &mut C,
) -> Result<Result<Value, LoadReason>, AllocError>
    ensures value { IfOk result (λ answer. answer ≡ amount (done (λ number. data_of.Number number)
        (taken (cell_value (C.store cells.old) (C.writes cells.old))
        (each_text (map value_of names.now) sight.now (C.store cells.old) (C.writes cells.old))))) }
    ensures datum { IfOk result (λ answer. answer ≡ taken (cell_value (C.store cells.old) (C.writes cells.old))
        (each_text (map value_of names.now) sight.now (C.store cells.old) (C.writes cells.old))) }
    ensures store { C.store cells.new ≡ C.store cells.old }
    ensures writes { C.writes cells.new ≡ C.writes cells.old }
{
    match texts_of(alloc, names, sight, cells)? {
        Ok(names) => match cell_value(alloc, names.as_slice(), cells)? {
            Ok(value) => Ok(Ok(value)),
            Err(reason) => Ok(Err(reason)),
        },
        Err(reason) => Ok(Err(reason)),
    }
}

/// The name of the element at a place of a dimension: the dimension first, and then the place, which is evaluated
/// whatever the dimension gives.
#[cycle(values)]
#[tactic(auto, unfolding(crate::specs::Values::element_name))]
fn element_name<'a, C: WorkCells>(
    alloc: Global,
    dimension: &'a Boxed<Term>,
    place: &'a Boxed<Term>,
    sight: &Sight<'a>,
    cells: &mut C,
) -> Result<Result<Datum<'a>, LoadReason>, AllocError>
    ensures value { IfOk result (λ answer. answer ≡ element_name (C.store cells.old)
        (value_of dimension.now sight.now (C.store cells.old) (C.writes cells.old))
        (value_of place.now sight.now (C.store cells.old) (C.writes cells.old))) }
    ensures store { C.store cells.new ≡ C.store cells.old }
    ensures writes { C.writes cells.new ≡ C.writes cells.old }
{
    let dimension = text_at(alloc, dimension.get(), sight, cells)?;
    let place = amount_of(alloc, place.get(), sight, cells)?;
    named_at(alloc, dimension, place, cells)
}

/// What a function of a dimension and its elements gives for the texts of expressions.
#[cycle(values)]
fn asked_of<'a, C: WorkCells>(
    alloc: Global,
    function: ElementFun,
    names: &'a [Term],
    sight: &Sight<'a>,
    cells: &mut C,
) -> Result<Result<Datum<'a>, LoadReason>, AllocError>
    ensures value { IfOk result (λ answer. answer ≡ taken (asked (C.store cells.old) function)
        (each_text (map value_of names.now) sight.now (C.store cells.old) (C.writes cells.old))) }
    ensures store { C.store cells.new ≡ C.store cells.old }
    ensures writes { C.writes cells.new ≡ C.writes cells.old }
{
    match texts_of(alloc, names, sight, cells)? {
        Ok(names) => asked(alloc, function, names.as_slice(), cells),
        Err(reason) => Ok(Err(reason)),
    }
}

/// Whether the cell that expressions name is open for input.
#[cycle(values)]
fn updateable_at<'a, C: WorkCells>(
    alloc: Global,
    names: &'a [Term],
    sight: &Sight<'a>,
    cells: &mut C,
) -> Result<Result<Datum<'a>, LoadReason>, AllocError>
    ensures value { IfOk result (λ answer. answer ≡ taken (updateable (C.store cells.old))
        (each_text (map value_of names.now) sight.now (C.store cells.old) (C.writes cells.old))) }
    ensures store { C.store cells.new ≡ C.store cells.old }
    ensures writes { C.writes cells.new ≡ C.writes cells.old }
{
    match texts_of(alloc, names, sight, cells)? {
        Ok(names) => updateable(alloc, names.as_slice(), cells),
        Err(reason) => Ok(Err(reason)),
    }
}

/// What expressions give as texts, from left to right, or the first reason why one gives none.
#[cycle(values)]
pub fn texts_of<'a, C: WorkCells>(
    alloc: Global,
    terms: &'a [Term],
    sight: &Sight<'a>,
    cells: &mut C,
) -> Result<Result<ListOf<Text<'a>>, LoadReason>, AllocError>
    ensures value { IfOk result (λ answer. answer
        ≡ each_text (map value_of terms.now) sight.now (C.store cells.old) (C.writes cells.old)) }
    ensures store { C.store cells.new ≡ C.store cells.old }
    ensures writes { C.writes cells.new ≡ C.writes cells.old }
{
    let mut texts = Vec::with_capacity(alloc, terms.len())?;
    'each: for term in terms {
        match text_at(alloc, term, sight, cells)? {
            Ok(text) => texts.push(text)?,
            Err(reason) => return Ok(Err(reason)),
        }
    }
    Ok(Ok(ListOf::new(texts)))
}
