ghost use Rattle.std.specs.Prelude.{◌≡◌, ◌+◌, vec_len, IfOk};
ghost use Rattle.sandbox.specs.Sandboxes.{answer};
ghost use Rattle.version_book.specs.Passes.{IsFirst, IsOf};
ghost use Rattle.sessions.specs.Inside.AllSessions.{AreRunning, commands_of};
ghost use Rattle.sessions.specs.Inside.Gathered.{IsGiver};

use crate::answer::number_after;
use crate::session::Session;
use lists::ListOf;
use sandbox::{Act, Layered};
use std::alloc::{AllocError, Global};
use version_book::{Book, Pass};

/// A session for each of these users, in their order, by passes that are split from the first one.
pub(crate) fn open_all<W: Layered>(
    alloc: Global,
    book: &Book<W>,
    giver: &mut Pass<W>,
    users: Vec<ListOf<Act<W::Command>>>,
) -> Result<Vec<Session<W>>, AllocError>
    requires of { IsOf book.now giver.old }
    requires first { IsFirst giver.old }
    ensures of { IsOf book.now giver.new }
    ensures giver { IfOk result (λ sessions. IsGiver giver.new (vec_len sessions + 1)) }
    ensures commands { IfOk result (λ sessions. commands_of sessions.items ≡ users.items) }
    ensures running { IfOk result (λ sessions.
        AreRunning (answer W.effect W.after W.sandbox) W.after W.content W.sandbox.unfit W.kept_writes book.now
        sessions.items) }
{
    let mut sessions = Vec::new(alloc);
    for commands in users {
        sessions.reserve(1)?;
        let user = number_after(sessions.len())?;
        let pass = book.split(giver);
        sessions.push_reserved(Session::new(alloc, pass, user, commands));
    }
    Ok(sessions)
}
