ghost use Rattle.std.specs.Prelude.{◌≡◌, ◌≤◌, List, map, IfOk, Ok};
ghost use Rattle.script_values.specs.Cells.{refusal, writes_after};
ghost use Rattle.script_values.specs.Values as values;
ghost use Rattle.script_values.specs.declared.kept.Kept.TheVariants as kept;
ghost use Rattle.script_run.specs.Meaning as meaning;
ghost use Rattle.script_run.specs.Meaning.{Ended, given};
ghost use Rattle.script_run.specs.Inside.Executions.{changed};

use crate::ending::Ending;
use crate::here::Here;
use crate::progress::Run;
use cube_fixed::{Value, add};
use lists::ListOf;
use script_bound::Term;
use script_values::{
    Datum, Kept, LoadReason, Sight, Text, WorkCells, amount_of, cell_value, texts_of, truth_of,
    value_of,
};
use std::alloc::{AllocError, Global};

/// What a statement does to a cell.
#[derive(Clone, Copy)]
pub(crate) enum Change {
    /// `CellPutN` writes a number.
    Put,
    /// `CellIncrementN` adds it to the cell's value.
    Add,
}

/// What a variable holds after this is assigned to it.
fn kept(
    alloc: Global,
    datum: Result<Datum<'_>, LoadReason>,
) -> Result<Result<Kept, LoadReason>, AllocError>
    ensures { IfOk result (λ answer. answer ≡ values.taken meaning.as_kept datum.entry) }
{
    match datum {
        Ok(Datum::Number(value)) => Ok(Ok(Kept::Number(value))),
        Ok(Datum::Text(text) | Datum::Column(text, _)) => {
            Ok(Ok(Kept::Text(text.into_list(alloc)?)))
        }
        Ok(Datum::Truth(_)) => Ok(Err(LoadReason::TypeMismatch)),
        Err(reason) => Ok(Err(reason)),
    }
}

/// What a variable holds after a number is assigned to it.
fn kept_number(given: Result<Value, LoadReason>) -> Result<Kept, LoadReason>
    ensures { result ≡ values.done kept.Number given }
{
    Ok(Kept::Number(given?))
}

/// What a variable holds after an expression is assigned to it. What an operation gives isn't made a datum first.
fn kept_of<C: WorkCells>(
    alloc: Global,
    term: &Term,
    here: &Here<'_>,
    run: &Run,
    cells: &mut C,
) -> Result<Result<Kept, LoadReason>, AllocError>
    ensures value { let datum = given term.now (C.store cells.old) here.now run.now.progress (C.writes cells.old) in
        IfOk result (λ answer. answer ≡ values.taken meaning.as_kept datum) }
    ensures store { C.store cells.new ≡ C.store cells.old }
    ensures writes { C.writes cells.new ≡ C.writes cells.old }
{
    let sight = run.sight(here);
    match term {
        Term::Amounts(..) => Ok(kept_number(amount_of(alloc, term, &sight, cells)?)),
        _ => {
            let datum = value_of(alloc, term, &sight, cells)?;
            kept(alloc, datum)
        }
    }
}

/// Whether a condition holds.
pub(crate) fn holds<C: WorkCells>(
    alloc: Global,
    test: &Term,
    here: &Here<'_>,
    run: &Run,
    cells: &mut C,
) -> Result<Result<bool, LoadReason>, AllocError>
    ensures value { IfOk result (λ answer. answer
        ≡ values.truth (given test.now (C.store cells.old) here.now run.now.progress (C.writes cells.old))) }
    ensures store { C.store cells.new ≡ C.store cells.old }
    ensures writes { C.writes cells.new ≡ C.writes cells.old }
{
    let sight = run.sight(here);
    truth_of(alloc, test, &sight, cells)
}

/// Runs an assignment.
#[tactic(auto, unfolding(crate::specs::Meaning::assign))]
pub(crate) fn assign<C: WorkCells>(
    alloc: Global,
    place: usize,
    term: &Term,
    here: &Here<'_>,
    run: &mut Run,
    cells: &mut C,
) -> Result<Ending, AllocError>
    ensures ended { IfOk result (λ ending. Ended ending run.new.progress (C.writes cells.new)
        ≡ meaning.assign place term.now (C.store cells.old) here.now run.old.progress (C.writes cells.old)) }
    ensures left { run.new.progress.left ≤ run.old.progress.left }
    ensures held { IfOk result (λ _. run.new.held ≡ run.old.held) }
    ensures store { C.store cells.new ≡ C.store cells.old }
{
    match kept_of(alloc, term, here, run, cells)? {
        Ok(value) => {
            run.keep(place, value)?;
            Ok(Ending::Next)
        }
        Err(reason) => Ok(Ending::Stopped(reason)),
    }
}

/// Two that are given, or the first reason why one isn't.
fn both<'a>(
    value: Result<Value, LoadReason>,
    names: Result<ListOf<Text<'a>>, LoadReason>,
) -> Result<(Value, ListOf<Text<'a>>), LoadReason>
    ensures { result ≡ values.one_and_other (λ number texts. (number, texts)) value names.entry }
{
    Ok((value?, names?))
}

/// A number and the names of a cell, or the first reason why one isn't given.
fn arguments<'a, C: WorkCells>(
    alloc: Global,
    value: &'a Term,
    names: &'a [Term],
    sight: &Sight<'a>,
    cells: &mut C,
) -> Result<Result<(Value, ListOf<Text<'a>>), LoadReason>, AllocError>
    ensures value { IfOk result (λ answer. answer ≡ meaning.arguments value.now names.now sight.now
        (C.store cells.old) (C.writes cells.old)) }
    ensures store { C.store cells.new ≡ C.store cells.old }
    ensures writes { C.writes cells.new ≡ C.writes cells.old }
{
    let value = amount_of(alloc, value, sight, cells)?;
    let names = texts_of(alloc, names, sight, cells)?;
    Ok(both(value, names))
}

/// Writes a value into the cell of these names, if that isn't refused.
fn write<C: WorkCells>(
    alloc: Global,
    names: &[Text<'_>],
    value: Value,
    cells: &mut C,
) -> Result<Option<LoadReason>, AllocError>
    ensures refused { IfOk result (λ reason. reason
        ≡ refusal (meaning.with_write (C.store cells.old) (C.writes cells.old) names.now value)) }
    ensures written { IfOk result (λ _. C.writes cells.new ≡ writes_after (C.writes cells.old)
        (meaning.with_write (C.store cells.old) (C.writes cells.old) names.now value)) }
    ensures store { C.store cells.new ≡ C.store cells.old }
{
    match names {
        [cube, elements @ ..] => cells.put(alloc, cube.as_slice(), elements, value),
        [] => Ok(Some(LoadReason::UnknownName)),
    }
}

fn ending_of(refused: Option<LoadReason>) -> Ending
    ensures { result ≡ meaning.ending_of refused }
{
    match refused {
        None => Ending::Next,
        Some(reason) => Ending::Stopped(reason),
    }
}

/// Writes the value of the cell of these names and a number more, if that isn't refused.
fn add_to_cell<C: WorkCells>(
    alloc: Global,
    names: &[Text<'_>],
    more: Value,
    cells: &mut C,
) -> Result<Option<LoadReason>, AllocError>
    ensures refused { IfOk result (λ reason. reason ≡ refusal
        (meaning.increment_arguments (C.store cells.old) (C.writes cells.old) (more, names.now))) }
    ensures written { IfOk result (λ _. C.writes cells.new ≡ writes_after (C.writes cells.old)
        (meaning.increment_arguments (C.store cells.old) (C.writes cells.old) (more, names.now))) }
    ensures store { C.store cells.new ≡ C.store cells.old }
{
    match cell_value(alloc, names, cells)? {
        Ok(before) => write(alloc, names, add(before, more), cells),
        Err(reason) => Ok(Some(reason)),
    }
}

/// Runs a `CellPutN` or a `CellIncrementN`.
#[tactic(auto, unfolding(crate::specs::Meaning::put, crate::specs::Meaning::increment))]
pub(crate) fn change_cell<C: WorkCells>(
    alloc: Global,
    change: Change,
    value: &Term,
    names: &[Term],
    here: &Here<'_>,
    run: &Run,
    cells: &mut C,
) -> Result<Ending, AllocError>
    ensures ended { IfOk result (λ ending. Ended ending run.now.progress (C.writes cells.new)
        ≡ changed change value.now names.now (C.store cells.old) here.now run.now.progress (C.writes cells.old)) }
    ensures store { C.store cells.new ≡ C.store cells.old }
{
    let sight = run.sight(here);
    match arguments(alloc, value, names, &sight, cells)? {
        Ok((number, names)) => match change {
            Change::Put => Ok(ending_of(write(alloc, names.as_slice(), number, cells)?)),
            Change::Add => { Ok(ending_of(add_to_cell(alloc, names.as_slice(), number, cells)?)) }
        },
        Err(reason) => Ok(Ending::Stopped(reason)),
    }
}

/// Writes a 0 into each open leaf cell that is stored at the cell of these names or counts in it.
fn zero_out_at<C: WorkCells>(
    alloc: Global,
    names: &[Text<'_>],
    cells: &mut C,
) -> Result<Option<LoadReason>, AllocError>
    ensures refused { IfOk result (λ reason. reason
        ≡ refusal (meaning.zeroing_arguments (C.store cells.old) (C.writes cells.old) names.now)) }
    ensures written { IfOk result (λ _. C.writes cells.new ≡ writes_after (C.writes cells.old)
        (meaning.zeroing_arguments (C.store cells.old) (C.writes cells.old) names.now)) }
    ensures store { C.store cells.new ≡ C.store cells.old }
{
    match names {
        [cube, elements @ ..] => cells.zero_out(alloc, cube.as_slice(), elements),
        [] => Ok(Some(LoadReason::UnknownName)),
    }
}

/// Runs a `ZeroOut`.
#[tactic(auto, unfolding(crate::specs::Meaning::zero_out))]
pub(crate) fn zero_out<C: WorkCells>(
    alloc: Global,
    names: &[Term],
    here: &Here<'_>,
    run: &Run,
    cells: &mut C,
) -> Result<Ending, AllocError>
    ensures ended { IfOk result (λ ending. Ended ending run.now.progress (C.writes cells.new)
        ≡ meaning.zero_out names.now (C.store cells.old) here.now run.now.progress (C.writes cells.old)) }
    ensures store { C.store cells.new ≡ C.store cells.old }
{
    let sight = run.sight(here);
    match texts_of(alloc, names, &sight, cells)? {
        Ok(names) => Ok(ending_of(zero_out_at(alloc, names.as_slice(), cells)?)),
        Err(reason) => Ok(Ending::Stopped(reason)),
    }
}
