ghost use Rattle.std.specs.Prelude.{◌≡◌, IfOk};
ghost use Rattle.cube_server.specs.Sample.{IsSampleRun, IsSummary, sample_words};
ghost use Rattle.cube_words.specs.Words.{texts_of};

use crate::users::serve_users;
use accepted::Accepted;
use cube_outside::Gate;
use cube_sample::sample_files;
use file_passes::Readings;
use lists::ListOf;
use run_passes::{RunJob, run_passes};
use sample_summary::sample_text;
use sandbox::Act;
use std::alloc::{AllocError, Global};
use std::sync::Wait;
use std::thread::Threads;
use user_session::PlanCommand;

/// Runs the sample of so many records, and sums up what its users leave.
pub(crate) fn sample<R: Threads + Wait + Sync, G: Gate + Sync>(
    rt: &R,
    alloc: Global,
    gate: &G,
    size: u32,
) -> Result<Vec<u8>, AllocError>
    ensures { IfOk result (λ text. IsSummary size text.items) }
{
    let (model, users) = sample_run(alloc, size)?;
    // an accepted model says of itself that it is one
    let _model = model.model();
    let mut served = serve_users(rt, alloc, gate, model, users)?;
    // the state says of itself that it has just the fed cells
    let _stored = served.state.store().len();
    match sample_text(alloc, &mut served.state, size)? {
        Some(text) => Ok(text),
        // a sample's model has both totals
        None => Err(AllocError),
    }
}

// The model and the commands of the sample's users: what the passes of a run find in its files.
fn sample_run(
    alloc: Global,
    size: u32,
) -> Result<(Accepted, ListOf<ListOf<Act<PlanCommand>>>), AllocError>
    ensures { IfOk result (λ run. IsSampleRun size run.0 run.1) }
{
    if size == 0 {
        // no words ask for it
        return Err(AllocError);
    }
    let mut files = sample_files(alloc, size)?;
    let words = sample_words(alloc)?;
    let mut readings = Readings::new(alloc);
    match run_passes(alloc, &words, &mut files, &mut readings) {
        Ok(RunJob::Serve(model, users)) => Ok((model, users)),
        // a sample is accepted, which cases show
        Ok(RunJob::Check(_) | RunJob::Explain(_, _, _) | RunJob::Feeders(_) | RunJob::Sample(_))
        | Err(_) => Err(AllocError),
    }
}

fn sample_words(alloc: Global) -> Result<Vec<String>, AllocError>
    ensures { IfOk result (λ words. texts_of words.items ≡ sample_words) }
{
    let mut words = Vec::new(alloc);
    words.push(String::from_str(alloc, "model.txt")?)?;
    words.push(String::from_str(alloc, "one.txt")?)?;
    words.push(String::from_str(alloc, "two.txt")?)?;
    Ok(words)
}
