ghost use Rattle.std.specs.Prelude.{◌≡◌, IfOk, OnErr};
ghost use Rattle.accepted.specs.Checks.{IsAccepted};
ghost use Rattle.cube_server.specs.Answer.{IsNoted, IsOutput, IsServed, Allows, AsksInTurn};
ghost use Rattle.cube_server.specs.Inside.Ending.{Answers, joined};
ghost use Rattle.file_passes.specs.Outside.{outside};
ghost use Rattle.model_counts.specs.Counts.{accepted_text};
ghost use Rattle.cube_server.specs.Output.{users_text};
ghost use Rattle.cube_words.specs.Words.{texts_of};

use crate::print::{print_history, print_unread, print_usage, print_user};
use crate::refusal_text::refusal_text;
use crate::sample::sample;
use crate::status::Status;
use crate::users::serve_users;
use accepted::Accepted;
use cube_outside::{Files, Gate};
use feed_print::found_text;
use file_passes::{Halt, Readings};
use history::Told;
use lists::ListOf;
use model_counts::accepted_text;
use note_lines::note_lines;
use run_passes::{RunJob, run_passes};
use sandbox::Act;
use std::alloc::{AllocError, Global};
use std::sync::Wait;
use std::thread::Threads;
use user_session::{PlanCommand, ReplyText};

/// How a run is to end, and the pieces of its text in the order in which they are written.
#[derive(Drop)]
pub(crate) struct Answer {
    pub(crate) status: Status,
    pub(crate) pieces: Vec<Vec<u8>>,
}

/// Reads and checks, and runs the users.
pub(crate) fn answer_of<R: Threads + Wait + Sync, F: Files, G: Gate + Sync>(
    rt: &R,
    alloc: Global,
    words: &[String],
    files: &mut F,
    gate: &G,
) -> Result<Answer, AllocError>
    ensures allowed { IfOk result (λ answer. Allows (texts_of words.now)
        (outside F.seen files.old files.new) answer.status (joined answer.pieces.items)) }
    ensures asked { OnErr result (AsksInTurn (texts_of words.now) (outside F.seen files.old files.new)) }
{
    let mut readings = Readings::new(alloc);
    match run_passes(alloc, words, files, &mut readings) {
        Ok(job) => done(rt, alloc, gate, readings, job),
        Err(halt) => halted(alloc, words, &readings, files.missed(), halt),
    }
}

// Does what was asked.
fn done<R: Threads + Wait + Sync, G: Gate + Sync>(
    rt: &R,
    alloc: Global,
    gate: &G,
    readings: Readings,
    job: RunJob,
) -> Result<Answer, AllocError>
    ensures status { IfOk result (λ answer. answer.status ≡ Status.Done) }
    ensures text { IfOk result (λ answer. IsOutput readings job (joined answer.pieces.items)) }
{
    match job {
        RunJob::Serve(model, users) => {
            // what was read isn't held while the users run
            drop(readings);
            served(rt, alloc, gate, model, users)
        }
        RunJob::Check(model) => accepted(alloc, &model),
        RunJob::Explain(model, file, files) => {
            noted(alloc, &readings, &model, file.as_slice(), files.as_slice())
        }
        RunJob::Feeders(bound) => one_piece(
            alloc,
            Status::Done,
            found_text(alloc, &bound.model, bound.asking.as_slice())?,
        ),
        RunJob::Sample(size) => one_piece(alloc, Status::Done, sample(rt, alloc, gate, size)?),
    }
}

// Says that the model is accepted.
fn accepted(alloc: Global, model: &Accepted) -> Result<Answer, AllocError>
    ensures status { IfOk result (λ answer. answer.status ≡ Status.Done) }
    ensures text { IfOk result (λ answer. IsAccepted model.now
        × (joined answer.pieces.items ≡ accepted_text model.now)) }
{
    one_piece(alloc, Status::Done, accepted_text(alloc, model.model())?)
}

// Says that the model is accepted, and what in its file and in the rule files of these names is hardly ever meant.
fn noted(
    alloc: Global,
    readings: &Readings,
    model: &Accepted,
    file: &[u8],
    files: &[ListOf<u8>],
) -> Result<Answer, AllocError>
    ensures status { IfOk result (λ answer. answer.status ≡ Status.Done) }
    ensures text { IfOk result (λ answer.
        IsNoted readings.now model.now file.now files.now (joined answer.pieces.items)) }
{
    let mut text = accepted_text(alloc, model.model())?;
    text.extend_from_slice(&note_lines(alloc, readings, file, files, model.model())?)?;
    one_piece(alloc, Status::Done, text)
}

// Runs the users.
fn served<R: Threads + Wait + Sync, G: Gate + Sync>(
    rt: &R,
    alloc: Global,
    gate: &G,
    model: Accepted,
    users: ListOf<ListOf<Act<PlanCommand>>>,
) -> Result<Answer, AllocError>
    ensures status { IfOk result (λ answer. answer.status ≡ Status.Done) }
    ensures text { IfOk result (λ answer. IsServed model users (joined answer.pieces.items)) }
{
    // an accepted model says of itself that it is one
    let _model = model.model();
    let served = serve_users(rt, alloc, gate, model, users)?;
    let mut pieces = print_users(alloc, served.told)?;
    pieces.push(print_history(alloc, &served.log)?)?;
    Ok(Answer {
        status: Status::Done,
        pieces,
    })
}

// The text of each user. The replies of one user are let go of before those of the next are printed.
fn print_users(
    alloc: Global,
    told: Vec<ListOf<Told<ReplyText>>>,
) -> Result<Vec<Vec<u8>>, AllocError>
    ensures { IfOk result (λ pieces. joined pieces.items ≡ users_text told.items) }
{
    let count = told.len();
    let mut pieces = Vec::new(alloc);
    let mut user = 0;
    for of_user in told {
        prove!(user < count);
        user += 1;
        pieces.push(print_user(alloc, user, of_user)?)?;
    }
    Ok(pieces)
}

// Says why the run of these words went no further.
fn halted(
    alloc: Global,
    words: &[String],
    readings: &Readings,
    missed: &[u8],
    halt: Halt,
) -> Result<Answer, AllocError>
    ensures { IfOk result (λ answer. Answers (texts_of words.now) readings.now halt missed.now answer.status
        (joined answer.pieces.items)) }
{
    match halt {
        Halt::NotWords => one_piece(alloc, Status::Usage, print_usage(alloc)?),
        Halt::Unread => one_piece(alloc, Status::ReadFault, print_unread(alloc, missed)?),
        Halt::Refused(refusal) => one_piece(
            alloc,
            Status::Refused,
            refusal_text(alloc, words, readings, &refusal)?,
        ),
        Halt::Memory => Err(AllocError),
    }
}

fn one_piece(alloc: Global, status: Status, piece: Vec<u8>) -> Result<Answer, AllocError>
    ensures status { IfOk result (λ answer. answer.status ≡ status) }
    ensures text { IfOk result (λ answer. joined answer.pieces.items ≡ piece.items) }
{
    let mut pieces = Vec::new(alloc);
    pieces.push(piece)?;
    Ok(Answer { status, pieces })
}
