ghost use Rattle.std.specs.Prelude.{◌≡◌, ◌+◌, ◌≤◌, [], None, length, map, vec_len, vec_capacity, IfOk, IsTrue, All};
ghost use Rattle.history.specs.Version.{content_after};
ghost use Rattle.layers.specs.Layered.{IsLayeredHistoryOf};
ghost use Rattle.sandbox.specs.Sandboxes.{answer};
ghost use Rattle.version_book.specs.Passes.{IsOf, next_of, numbers_of, opening_of, seen};
ghost use Rattle.sessions.specs.Answers.{EachHasLooked};
ghost use Rattle.sessions.specs.Inside.AllSessions.{AreRunning, HasAnsweredAll, commands_of};
ghost use Rattle.sessions.specs.Inside.Gathered.{IsGathered, IsGiver};

use crate::serving::{Served, ServedOf};
use crate::session::{Session, SessionOf};
use history::Told;
use lists::ListOf;
use sandbox::Layered;
use std::alloc::{AllocError, Global};
use std::snapshot::Snapshot;
use std::sync::Wait;
use version_book::{Book, ClosedOf, Pass};

/// Ends the book: brings all passes together, where each session has answered all its acts. A session with acts left
/// ran out of memory.
pub(crate) fn close_all<W: Layered, R: Wait>(
    rt: &R,
    alloc: Global,
    book: Book<W>,
    first: Pass<W>,
    sessions: Vec<Session<W>>,
) -> Result<Served<W>, AllocError>
    requires of { IsOf book first }
    requires giver { IsGiver first (vec_len sessions + 1) }
    requires running { AreRunning (answer W.effect W.after W.sandbox) W.after W.content W.sandbox.unfit
        W.kept_writes book sessions.items }
    ensures history { IfOk result (λ served. IsLayeredHistoryOf (answer W.effect W.after W.sandbox) W.after
        (W.content (opening_of book)) None (commands_of sessions.items) served.told.items served.log.items) }
    ensures state { IfOk result (λ served.
        W.content served.state ≡ content_after W.after (W.content (opening_of book)) served.log.items) }
    ensures looks { IfOk result (λ served. EachHasLooked (answer W.effect W.after W.sandbox) W.after W.content
        (opening_of book) (commands_of sessions.items) served.told.items served.passes.items) }
    ensures passes { IfOk result (λ served. length served.passes.items ≡ length sessions.items) }
{
    let mut told = Vec::new(alloc);
    let room = told.reserve(sessions.len());
    let Ok(passes) = passes_of::<W>(alloc, sessions.as_slice()) else {
        drop(sessions);
        drop(first);
        drop(book);
        return Err(AllocError);
    };
    if room.is_err() || !all_answered(sessions.as_slice()) {
        drop(sessions);
        drop(first);
        drop(book);
        return Err(AllocError);
    }
    let all = meet_all(rt, &book, first, sessions, &mut told);
    let ClosedOf { history, state } = book.close(all);
    Ok(ServedOf {
        told,
        log: history,
        state,
        passes,
    })
}

// What the pass of each session is.
fn passes_of<W: Layered>(
    alloc: Global,
    sessions: &[Session<W>],
) -> Result<Vec<Snapshot<Pass<W>>>, AllocError>
    ensures { IfOk result (λ passes. map (λ pass. pass.value) passes.items
        ≡ map (λ session. session.pass) sessions.now) }
{
    let mut passes = Vec::with_capacity(alloc, sessions.len())?;
    'each: for place in 0..sessions.len() {
        passes.push(Snapshot::of(&sessions[place].pass))?;
    }
    Ok(passes)
}

// One pass of all sessions' passes and the first one, and the replies of each session.
fn meet_all<W: Layered, R: Wait>(
    rt: &R,
    book: &Book<W>,
    first: Pass<W>,
    sessions: Vec<Session<W>>,
    told: &mut Vec<ListOf<Told<W::Reply>>>,
) -> Pass<W>
    requires of { IsOf book.now first }
    requires giver { IsGiver first (vec_len sessions + 1) }
    requires running { AreRunning (answer W.effect W.after W.sandbox) W.after W.content W.sandbox.unfit
        W.kept_writes book.now sessions.items }
    requires answered { All HasAnsweredAll sessions.items }
    requires empty { told.old.items ≡ [] }
    requires room { vec_len sessions ≤ vec_capacity told.old }
    ensures of { IsOf book.now result }
    ensures next { next_of result ≡ next_of first }
    ensures gathered { IsGathered (answer W.effect W.after W.sandbox) W.after (W.content (opening_of book.now))
        (commands_of sessions.items) told.new.items (numbers_of result) (seen result) }
    ensures told { told.new.items ≡ map (λ session. session.told.items) sessions.items }
{
    let mut all = first;
    for session in sessions {
        let (pass, replies) = session.finish();
        all = book.meet(rt, all, pass);
        told.push_reserved(replies);
    }
    all
}

fn all_answered<L, C, T, K, R, Y>(sessions: &[SessionOf<L, C, T, K, R, Y>]) -> bool
    ensures { IsTrue result → All HasAnsweredAll sessions.now }
{
    sessions.iter().all(|session| session.told.len() == session.commands.as_slice().len())
}
