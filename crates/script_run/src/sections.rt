ghost use Rattle.std.specs.Prelude.{◌≡◌, ◌+◌, List, [], length, IfOk};
ghost use Rattle.script_tree.specs.declared.script.Section.TheVariants as sections_of;
ghost use Rattle.script_run.specs.Meaning.{Ended, block_of, then_do};
ghost use Rattle.script_run.specs.Load.{is_of_record, records, setting, sections, tried};

use crate::ending::Ending;
use crate::here::Here;
use crate::progress::Run;
use crate::statements::run_block;
use script_bound::{BoundScript, Statement};
use script_tree::Section;
use script_values::{LoadReason, WorkCells};
use std::alloc::{AllocError, Global};
use user_text::{Record, Rows};

/// Whether a reason lies in the record, so that the record may be passed over for it.
fn is_of_record(reason: LoadReason) -> bool
    ensures { result ≡ is_of_record reason }
{
    match reason {
        LoadReason::UnknownName
        | LoadReason::NotALeaf
        | LoadReason::RuleDerived
        | LoadReason::NotANumber
        | LoadReason::OverWrite
        | LoadReason::UnsetVariable
        | LoadReason::TypeMismatch => true,
        LoadReason::ProcessError
        | LoadReason::StepLimit
        | LoadReason::StoreLimit(_)
        | LoadReason::FedLimit(_)
        | LoadReason::TextLimit => false,
    }
}

/// Runs Data for a record, which is passed over where a reason that lies in it stops it.
fn try_record<C: WorkCells>(
    alloc: Global,
    body: &[Statement],
    here: &Here<'_>,
    run: &mut Run,
    cells: &mut C,
) -> Result<Ending, AllocError>
    ensures ended { IfOk result (λ ending. Ended ending run.new.progress (C.writes cells.new)
        ≡ tried (length run.old.progress.rejects + 1) run.old.progress (C.writes cells.old)
        (block_of body.now (C.store cells.old) here.now run.old.progress (C.writes cells.old))) }
    ensures store { C.store cells.new ≡ C.store cells.old }
{
    let count = cells.mark()?;
    run.mark();
    match run_block(alloc, body, here, run, cells)? {
        Ending::Next => Ok(Ending::Next),
        Ending::Skipped => Ok(Ending::Skipped),
        Ending::Broken => Ok(Ending::Broken),
        Ending::Stopped(reason) if is_of_record(reason) => {
            cells.back(alloc, count)?;
            run.pass_over(reason)?;
            Ok(Ending::Next)
        }
        Ending::Stopped(reason) => Ok(Ending::Stopped(reason)),
    }
}

/// Runs Data for a record. At most so many records are passed over.
fn run_record<C: WorkCells>(
    alloc: Global,
    body: &[Statement],
    here: &Here<'_>,
    most: u32,
    run: &mut Run,
    cells: &mut C,
) -> Result<Ending, AllocError>
    ensures ended { IfOk result (λ ending. Ended ending run.new.progress (C.writes cells.new)
        ≡ tried most run.old.progress (C.writes cells.old)
        (block_of body.now (C.store cells.old) here.now run.old.progress (C.writes cells.old))) }
    ensures store { C.store cells.new ≡ C.store cells.old }
{
    if run.rejects().len() < most as usize {
        try_record(alloc, body, here, run, cells)
    } else {
        run_block(alloc, body, here, run, cells)
    }
}

/// Runs Data, once for each record. At most so many records are passed over.
fn run_records<C: WorkCells>(
    alloc: Global,
    body: &[Statement],
    mut rows: Rows<'_>,
    decimal: u8,
    most: u32,
    run: &mut Run,
    cells: &mut C,
) -> Result<Ending, AllocError>
    ensures ended { IfOk result (λ ending. Ended ending run.new.progress (C.writes cells.new)
        ≡ records decimal most (block_of body.now) (C.store cells.old) 1 rows.entry run.old.progress
        (C.writes cells.old)) }
    ensures store { C.store cells.new ≡ C.store cells.old }
{
    let mut row = 1u32;
    'each: while let Some(record) = rows.next() {
        let here = Here::new(decimal, Section::Body, row, &record);
        match run_record(alloc, body, &here, most, run, cells)? {
            Ending::Next => {}
            Ending::Skipped => {}
            Ending::Broken => return Ok(Ending::Broken),
            Ending::Stopped(reason) => return Ok(Ending::Stopped(reason)),
        }
        row = next_row(row)?;
    }
    Ok(Ending::Next)
}

/// The number of the next record. No memory holds so many records that there is none.
fn next_row(row: u32) -> Result<u32, AllocError>
    ensures { IfOk result (λ next. next ≡ row + 1) }
{
    row.checked_add(1).ok_or(AllocError)
}

/// Runs the Prolog, and then Data.
fn run_records_after_prolog<C: WorkCells>(
    alloc: Global,
    script: &BoundScript,
    rows: Rows<'_>,
    decimal: u8,
    most: u32,
    run: &mut Run,
    cells: &mut C,
) -> Result<Ending, AllocError>
    ensures ended { IfOk result (λ ending. Ended ending run.new.progress (C.writes cells.new)
        ≡ then_do (block_of script.now.prolog (C.store cells.old) (setting decimal sections_of.Prolog 0 [])
        run.old.progress (C.writes cells.old))
        (records decimal most (block_of script.now.body) (C.store cells.old) 1 rows.entry)) }
    ensures store { C.store cells.new ≡ C.store cells.old }
{
    let none = Record::empty();
    let here = Here::new(decimal, Section::Prolog, 0, &none);
    match run_block(alloc, script.prolog.as_slice(), &here, run, cells)? {
        Ending::Next => {
            run_records(
                alloc,
                script.body.as_slice(),
                rows,
                decimal,
                most,
                run,
                cells,
            )
        }
        Ending::Skipped => Ok(Ending::Skipped),
        Ending::Broken => Ok(Ending::Broken),
        Ending::Stopped(reason) => Ok(Ending::Stopped(reason)),
    }
}

/// Runs the Epilog.
fn run_epilog<C: WorkCells>(
    alloc: Global,
    script: &BoundScript,
    decimal: u8,
    run: &mut Run,
    cells: &mut C,
) -> Result<Ending, AllocError>
    ensures ended { IfOk result (λ ending. Ended ending run.new.progress (C.writes cells.new)
        ≡ block_of script.now.epilog (C.store cells.old) (setting decimal sections_of.Epilog 0 [])
        run.old.progress (C.writes cells.old)) }
    ensures store { C.store cells.new ≡ C.store cells.old }
{
    let none = Record::empty();
    let here = Here::new(decimal, Section::Epilog, 0, &none);
    run_block(alloc, script.epilog.as_slice(), &here, run, cells)
}

/// Runs the sections of a script, one after another.
pub(crate) fn run_sections<C: WorkCells>(
    alloc: Global,
    script: &BoundScript,
    rows: Rows<'_>,
    decimal: u8,
    most: u32,
    run: &mut Run,
    cells: &mut C,
) -> Result<Ending, AllocError>
    ensures ended { IfOk result (λ ending. Ended ending run.new.progress (C.writes cells.new)
        ≡ sections script.now (C.store cells.old) decimal most rows.entry run.old.progress (C.writes cells.old)) }
    ensures store { C.store cells.new ≡ C.store cells.old }
{
    match run_records_after_prolog(alloc, script, rows, decimal, most, run, cells)? {
        Ending::Next => run_epilog(alloc, script, decimal, run, cells),
        Ending::Skipped => run_epilog(alloc, script, decimal, run, cells),
        Ending::Broken => run_epilog(alloc, script, decimal, run, cells),
        Ending::Stopped(reason) => Ok(Ending::Stopped(reason)),
    }
}
