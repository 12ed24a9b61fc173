ghost use Rattle.std.specs.Prelude.{◌≡◌, map, IfOk};
ghost use Rattle.script_run.specs.Load as loads;
ghost use Rattle.script_run.specs.Load.{load, ran_of, writes_of, start};
ghost use Rattle.script_run.specs.Meaning.{Ended};

use crate::ending::Ending;
use crate::execution_place::ExecutionPlace;
use crate::progress::Run;
use crate::ran::Ran;
use crate::sections::run_sections;
use cube_fixed::Value;
use lists::ListOf;
use script_bound::BoundScript;
use script_tree::Section;
use script_values::{Kept, WorkCells};
use std::alloc::{AllocError, Global};
use user_text::{LoadParams, ParamText, Rows};

/// The most statements that a load executes.
const MAX_STEPS: u32 = 1_000_000;

fn param_value(alloc: Global, param: &ParamText) -> Result<Kept, AllocError>
    ensures { IfOk result (λ kept. kept ≡ loads.param_value param.now) }
{
    match param {
        ParamText::Number(number) => Ok(Kept::Number(Value::Num(*number))),
        ParamText::Text(bytes) => {
            let bytes = Vec::from_slice(alloc, bytes.as_slice())?;
            Ok(Kept::Text(ListOf::new(bytes)))
        }
    }
}

/// The parameter of a word, if there is one.
fn param_of(alloc: Global, params: &LoadParams, word: &[u8]) -> Result<Option<Kept>, AllocError>
    ensures { IfOk result (λ kept. kept ≡ loads.param_of params.now word.now) }
{
    match params.get(word) {
        Some(param) => Ok(Some(param_value(alloc, param)?)),
        None => Ok(None),
    }
}

/// What the variables hold before the Prolog.
fn variables(
    alloc: Global,
    words: &[ListOf<u8>],
    params: &LoadParams,
) -> Result<Vec<Option<Kept>>, AllocError>
    ensures { IfOk result (λ variables. variables.items ≡ map (loads.param_of params.now) words.now) }
{
    let mut variables = Vec::new(alloc);
    'each: for word in words {
        let value = param_of(alloc, params, word.as_slice())?;
        variables.push(value)?;
    }
    Ok(variables)
}

/// Before the first execution.
fn start(alloc: Global, script: &BoundScript, params: &LoadParams) -> Result<Run, AllocError>
    ensures { IfOk result (λ run. run.progress ≡ start script.now params.now) }
{
    let variables = variables(alloc, script.variables.as_slice(), params)?;
    let last = ExecutionPlace {
        section: Section::Prolog,
        row: 0,
        statement: 0,
    };
    Run::new(alloc, variables, MAX_STEPS, last)
}

/// How a load ended that has come so far.
fn ran_at(ending: Ending, run: Run) -> Ran
    ensures { result ≡ loads.ran_at ending run.progress }
{
    match ending {
        Ending::Stopped(reason) => {
            let last = run.last();
            Ran::Rejected {
                section: last.section,
                row: last.row,
                statement: last.statement,
                reason,
            }
        }
        Ending::Next | Ending::Skipped | Ending::Broken => Ran::Done(run.into_rejects()),
    }
}

/// Runs a bound script: the Prolog, Data once for each record, and the Epilog. The parameters are variables, by their
/// words in capitals, that are set before. Numbers in the records have `decimal` between units and decimals.
///
/// At most so many `rejects` are passed over: records that a reason that lies in them stopped, which leave nothing. The
/// first other reason ends the load, and what was written is then to be dropped.
///
/// Out of memory, nothing is said of the writes.
pub fn run<C: WorkCells>(
    alloc: Global,
    script: &BoundScript,
    rows: Rows<'_>,
    decimal: u8,
    rejects: u32,
    params: &LoadParams,
    cells: &mut C,
) -> Result<Ran, AllocError>
    ensures ran { IfOk result (λ ran. ran ≡ ran_of
        (load script.now params.now decimal rejects rows.entry (C.store cells.old) (C.writes cells.old))) }
    ensures writes { IfOk result (λ _. C.writes cells.new ≡ writes_of
        (load script.now params.now decimal rejects rows.entry (C.store cells.old) (C.writes cells.old))) }
    ensures store { C.store cells.new ≡ C.store cells.old }
{
    let mut run = start(alloc, script, params)?;
    let ending = run_sections(alloc, script, rows, decimal, rejects, &mut run, cells)?;
    Ok(ran_at(ending, run))
}
