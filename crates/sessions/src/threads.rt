ghost use Rattle.std.specs.Prelude.{◌≡◌, ℕ, ◌<◌, length, slice_index_or};
ghost use Rattle.sandbox.specs.Sandboxes.{answer};
ghost use Rattle.sessions.specs.Sessions.{IsRunning};
ghost use Rattle.sessions.specs.Inside.AllSessions.{AreRunning, commands_of};
ghost use Rattle.sessions.specs.Inside.Gathered.{IsFurther};

use crate::session::Session;
use cube_outside::Gate;
use sandbox::Layered;
use std::alloc::Global;
use std::sync::Wait;
use std::thread;
use std::thread::Threads;
use version_book::Book;

/// At most so many threads run users at the same time.
pub const MAX_THREADS: usize = 16;

/// Runs all sessions, each on a thread of its own where one can be started. A session whose memory ran out has commands
/// left.
pub(crate) fn run_all<W: Layered, R: Threads + Wait + Sync, G: Gate + Sync>(
    rt: &R,
    alloc: Global,
    book: &Book<W>,
    gate: &G,
    sessions: &mut [Session<W>],
)
where
    W: Send + Sync,
    W::State: Send + Sync,
    W::Content: Send + Sync,
    W::Command: Send + Sync,
    W::Reply: Send + Sync,
    W::Writes: Send + Sync,
    W::Layer: Send + Sync,
    requires running { AreRunning (answer W.effect W.after W.sandbox) W.after W.content W.sandbox.unfit
        W.kept_writes book.now sessions.old }
    ensures len { length sessions.new ≡ length sessions.old }
    ensures running { AreRunning (answer W.effect W.after W.sandbox) W.after W.content W.sandbox.unfit
        W.kept_writes book.now sessions.new }
    ensures commands { commands_of sessions.new ≡ commands_of sessions.old }
{
    run_each(rt, alloc, book, gate, sessions);
}

// Each session runs on with its own commands.
fn run_each<W: Layered, R: Threads + Wait + Sync, G: Gate + Sync>(
    rt: &R,
    alloc: Global,
    book: &Book<W>,
    gate: &G,
    sessions: &mut [Session<W>],
)
where
    W: Send + Sync,
    W::State: Send + Sync,
    W::Content: Send + Sync,
    W::Command: Send + Sync,
    W::Reply: Send + Sync,
    W::Writes: Send + Sync,
    W::Layer: Send + Sync,
    requires running { AreRunning (answer W.effect W.after W.sandbox) W.after W.content W.sandbox.unfit
        W.kept_writes book.now sessions.old }
    ensures len { length sessions.new ≡ length sessions.old }
    ensures each { (index : ℕ) (session : _) → index < length sessions.old
        → IsFurther (answer W.effect W.after W.sandbox) W.after W.content W.sandbox.unfit W.kept_writes book.now
        (slice_index_or sessions.old index session) (slice_index_or sessions.new index session) }
{
    thread::for_each_mut(
        rt,
        sessions,
        MAX_THREADS,
        &|_: usize, session: &mut Session<W>|
            requires { IsRunning (answer W.effect W.after W.sandbox) W.after W.content W.sandbox.unfit W.kept_writes
                book.now session.old }
            ensures { IsFurther (answer W.effect W.after W.sandbox) W.after W.content W.sandbox.unfit W.kept_writes
                book.entry.now session.old session.new }
        {
            let _ = session.run(rt, alloc, book, gate);
        },
    );
}
