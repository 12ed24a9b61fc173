ghost use Rattle.std.specs.Prelude.{◌≡◌, ◌≤◌, List, map, IfOk, IsFalse};
ghost use Rattle.script_values.specs.Cells.{Store, Write};
ghost use Rattle.script_values.specs.declared.load_reason.LoadReason.TheVariants as reason_of;
ghost use Rattle.script_run.specs.Meaning.{Ended, Begins, stopped, turns, block, choose, deed_of, case_deed};
ghost use Rattle.script_run.specs.Inside.Executions.{begun};

use crate::change::{Change, assign, change_cell, holds, zero_out};
use crate::ending::Ending;
use crate::here::Here;
use crate::progress::Run;
use script_bound::{Case, Statement, Term};
use script_values::{LoadReason, WorkCells};
use std::alloc::{AllocError, Global};

/// Begins a statement as one execution, if one is left. A `WHILE` begins with each of its tests.
#[tactic(auto, using(crate::proofs::Begun::not_begun), unfolding(crate::specs::Meaning::executed))]
fn begin(statement: &Statement, here: &Here<'_>, run: &mut Run) -> bool
    ensures begun { Begins result run.new.progress ≡ begun statement.now here.now run.old.progress }
    ensures limit { IsFalse result → (store : Store) (writes : List Write) →
        deed_of statement.now store here.now run.old.progress writes
        ≡ stopped reason_of.StepLimit run.new.progress writes }
    ensures left { run.new.progress.left ≤ run.old.progress.left }
    ensures held { run.new.held ≡ run.old.held }
{
    match statement {
        Statement::Assign(number, ..)
        | Statement::Put(number, ..)
        | Statement::Increment(number, ..)
        | Statement::ZeroOut(number, _)
        | Statement::Skip(number)
        | Statement::Break(number)
        | Statement::Error(number)
        | Statement::If(number, _) => run.begin(here.place_of(*number)),
        Statement::While(..) => true,
    }
}

/// Runs statements, one behind the other.
#[cycle(statements)]
pub(crate) fn run_block<C: WorkCells>(
    alloc: Global,
    statements: &[Statement],
    here: &Here<'_>,
    run: &mut Run,
    cells: &mut C,
) -> Result<Ending, AllocError>
    ensures ended { IfOk result (λ ending. Ended ending run.new.progress (C.writes cells.new)
        ≡ block (map deed_of statements.now) (C.store cells.old) here.now run.old.progress (C.writes cells.old)) }
    ensures left { run.new.progress.left ≤ run.old.progress.left }
    ensures held { IfOk result (λ _. run.new.held ≡ run.old.held) }
    ensures store { C.store cells.new ≡ C.store cells.old }
{
    'each: for statement in statements {
        match run_statement(alloc, statement, here, run, cells)? {
            Ending::Next => {}
            Ending::Skipped => return Ok(Ending::Skipped),
            Ending::Broken => return Ok(Ending::Broken),
            Ending::Stopped(reason) => return Ok(Ending::Stopped(reason)),
        }
    }
    Ok(Ending::Next)
}

/// Runs a statement.
#[cycle(statements)]
#[tactic(auto, unfolding(crate::specs::Meaning::executed))]
fn run_statement<C: WorkCells>(
    alloc: Global,
    statement: &Statement,
    here: &Here<'_>,
    run: &mut Run,
    cells: &mut C,
) -> Result<Ending, AllocError>
    ensures ended { IfOk result (λ ending. Ended ending run.new.progress (C.writes cells.new)
        ≡ deed_of statement.now (C.store cells.old) here.now run.old.progress (C.writes cells.old)) }
    ensures left { run.new.progress.left ≤ run.old.progress.left }
    ensures held { IfOk result (λ _. run.new.held ≡ run.old.held) }
    ensures store { C.store cells.new ≡ C.store cells.old }
{
    if !begin(statement, here, run) {
        return Ok(Ending::Stopped(LoadReason::StepLimit));
    }
    match statement {
        Statement::Assign(_, place, term) => assign(alloc, *place, term, here, run, cells),
        Statement::Put(_, term, names) => {
            change_cell(alloc, Change::Put, term, names.as_slice(), here, run, cells)
        }
        Statement::Increment(_, term, names) => {
            change_cell(alloc, Change::Add, term, names.as_slice(), here, run, cells)
        }
        Statement::ZeroOut(_, names) => zero_out(alloc, names.as_slice(), here, run, cells),
        Statement::Skip(_) => Ok(Ending::Skipped),
        Statement::Break(_) => Ok(Ending::Broken),
        Statement::Error(_) => Ok(Ending::Stopped(LoadReason::ProcessError)),
        Statement::If(_, cases) => run_choice(alloc, cases.as_slice(), here, run, cells),
        Statement::While(number, test, block) => {
            run_while(alloc, *number, block.as_slice(), test, here, run, cells)
        }
    }
}

/// Runs the first case that holds.
#[cycle(statements)]
fn run_choice<C: WorkCells>(
    alloc: Global,
    cases: &[Case],
    here: &Here<'_>,
    run: &mut Run,
    cells: &mut C,
) -> Result<Ending, AllocError>
    ensures ended { IfOk result (λ ending. Ended ending run.new.progress (C.writes cells.new)
        ≡ choose (map case_deed cases.now) (C.store cells.old) here.now run.old.progress (C.writes cells.old)) }
    ensures left { run.new.progress.left ≤ run.old.progress.left }
    ensures held { IfOk result (λ _. run.new.held ≡ run.old.held) }
    ensures store { C.store cells.new ≡ C.store cells.old }
{
    'each: for case in cases {
        match case {
            Case::When(test, statements) => match holds(alloc, test, here, run, cells)? {
                Ok(true) => return run_block(alloc, statements.as_slice(), here, run, cells),
                Ok(false) => {}
                Err(reason) => return Ok(Ending::Stopped(reason)),
            },
            Case::Otherwise(statements) => {
                return run_block(alloc, statements.as_slice(), here, run, cells);
            }
        }
    }
    Ok(Ending::Next)
}

/// Runs a `WHILE`: each test is one execution.
#[cycle(statements)]
#[tactic(auto, using(crate::proofs::Turns::a_turn))]
fn run_while<C: WorkCells>(
    alloc: Global,
    number: u32,
    statements: &[Statement],
    test: &Term,
    here: &Here<'_>,
    run: &mut Run,
    cells: &mut C,
) -> Result<Ending, AllocError>
    ensures ended { IfOk result (λ ending. Ended ending run.new.progress (C.writes cells.new)
        ≡ turns run.old.progress.left number test.now (block (map deed_of statements.now))
        (C.store cells.old) here.now run.old.progress (C.writes cells.old)) }
    ensures left { run.new.progress.left ≤ run.old.progress.left }
    ensures held { IfOk result (λ _. run.new.held ≡ run.old.held) }
    ensures store { C.store cells.new ≡ C.store cells.old }
{
    let mut most = run.left();
    'turn: loop {
        if !run.begin(here.place_of(number)) {
            return Ok(Ending::Stopped(LoadReason::StepLimit));
        }
        match holds(alloc, test, here, run, cells)? {
            Ok(true) => {}
            Ok(false) => return Ok(Ending::Next),
            Err(reason) => return Ok(Ending::Stopped(reason)),
        }
        match run_block(alloc, statements, here, run, cells)? {
            Ending::Next => {}
            Ending::Skipped => return Ok(Ending::Skipped),
            Ending::Broken => return Ok(Ending::Broken),
            Ending::Stopped(reason) => return Ok(Ending::Stopped(reason)),
        }
        most = most.saturating_sub(1);
    }
}
