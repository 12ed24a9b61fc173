ghost use Rattle.std.specs.Prelude.{◌≡◌, None, IfOk, length};
ghost use Rattle.history.specs.Version.{content_after};
ghost use Rattle.layers.specs.Layered.{IsLayeredHistoryOf};
ghost use Rattle.sandbox.specs.Sandboxes.{answer};
ghost use Rattle.sessions.specs.Answers.{EachHasLooked};

use crate::closing::close_all;
use crate::opening::open_all;
use crate::threads::run_all;
use cube_outside::Gate;
use history::{Entry, Told, World};
use lists::ListOf;
use sandbox::{Act, Layered};
use std::alloc::{AllocError, Global};
use std::snapshot::Snapshot;
use std::sync::Wait;
use std::thread::Threads;
use version_book::{Book, Pass};

/// The replies to each user, the history of accepted commands, and the state after it.
#[derive(Drop)]
pub struct ServedOf<P, S, T, R> {
    pub told: Vec<ListOf<Told<R>>>,
    pub log: Vec<Entry<T>>,
    pub state: S,
    /// What the pass of each user was in the end. It takes no memory.
    pub passes: Vec<Snapshot<P>>,
}

/// What is served at the book of a world.
pub type Served<W> = ServedOf<
    Pass<W>,
    <W as World>::State,
    <W as World>::Writes,
    <W as World>::Reply,
>;

/// Runs the users from this state on, each with its acts in order. A sandbox that is open at the end is dropped. Up to
/// [`crate::MAX_THREADS`] users have a thread each; where there are more, or no thread can be started, some run one
/// after another.
pub fn serve<W: Layered, R: Threads + Wait + Sync, G: Gate + Sync>(
    rt: &R,
    alloc: Global,
    gate: &G,
    state: W::State,
    users: Vec<ListOf<Act<W::Command>>>,
) -> Result<Served<W>, AllocError>
where
    W: Send + Sync,
    W::State: Send + Sync,
    W::Content: Send + Sync,
    W::Command: Send + Sync,
    W::Reply: Send + Sync,
    W::Writes: Send + Sync,
    W::Layer: Send + Sync,
    // each user begins without a sandbox
    ensures history { IfOk result (λ served. IsLayeredHistoryOf (answer W.effect W.after W.sandbox) W.after
        (W.content state) None users.items served.told.items served.log.items) }
    ensures state { IfOk result (λ served.
        W.content served.state ≡ content_after W.after (W.content state) served.log.items) }
    // each reply was decided by a look that was made for its command, or by two
    ensures looks { IfOk result (λ served. EachHasLooked (answer W.effect W.after W.sandbox) W.after W.content state
        users.items served.told.items served.passes.items) }
    ensures passes { IfOk result (λ served. length served.passes.items ≡ length users.items) }
{
    let (book, mut first) = Book::<W>::begin(alloc, state)?;
    let Ok(mut sessions) = open_all(alloc, &book, &mut first, users) else {
        drop(first);
        drop(book);
        return Err(AllocError);
    };
    run_all(rt, alloc, &book, gate, sessions.as_mut_slice());
    close_all(rt, alloc, book, first, sessions)
}
