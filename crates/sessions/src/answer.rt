ghost use Rattle.std.specs.Prelude.{◌≡◌, ◌+◌, ◌≤◌, [], ◌∷◌, IfOk, OnErr};
ghost use Rattle.sandbox.specs.Sandboxes.{answer as answer_of, layer_in, Reads};
ghost use Rattle.version_book.specs.Lists.{GoesOn};
ghost use Rattle.version_book.specs.Passes.{IsOf, IsSame, looks, numbers_of, opening_of, seen};
ghost use Rattle.sessions.specs.Answers.{IsAnswered, sight};
ghost use Rattle.sessions.specs.Sessions.{IsLaidAt};
ghost use Rattle.sessions.specs.Inside.Decided.{IsDecided, layer_left};

use crate::own::Own;
use cube_outside::Gate;
use history::{Effect, Told};
use sandbox::{Act, Layered, read_in};
use std::alloc::{AllocError, Global};
use std::sync::Wait;
use version_book::{Book, Pass, Settled, TriedOf};

/// Answers the user's act of this number on the newest version, in the user's sandbox where one is open. `by` has the
/// user and the number.
pub(crate) fn answer<W: Layered, R: Wait, G: Gate>(
    rt: &R,
    alloc: Global,
    book: &Book<W>,
    gate: &G,
    pass: &mut Pass<W>,
    own: &mut Own<W>,
    by: (u32, u32),
    act: &Act<W::Command>,
) -> Result<Told<W::Reply>, AllocError>
    requires of { IsOf book.now pass.old }
    requires user { numbers_of pass.old ≡ by.0 ∷ [] }
    requires laid { IsLaidAt W.content W.after W.sandbox.unfit W.kept_writes (W.content (opening_of book.now))
        (seen pass.old) own.old }
    ensures of { IsOf book.now pass.new }
    ensures same { IsSame pass.old pass.new }
    ensures answered { IfOk result (λ told. IsAnswered (answer_of W.effect W.after W.sandbox) W.after
        (W.content (opening_of book.now)) (sight pass.old) (sight pass.new) by.0 by.1
        (layer_in W.kept_writes own.old.sandbox) act.now told (layer_in W.kept_writes own.new.sandbox)) }
    ensures err { OnErr result (GoesOn (seen pass.old) (seen pass.new) (numbers_of pass.old)) }
    ensures layer { OnErr result (layer_in W.kept_writes own.new.sandbox ≡ layer_in W.kept_writes own.old.sandbox) }
    ensures laid { IsLaidAt W.content W.after W.sandbox.unfit W.kept_writes (W.content (opening_of book.now))
        (seen pass.new) own.new }
    ensures looks { looks pass.old ≤ looks pass.new }
{
    match (own.sandbox.as_ref(), act) {
        (None, Act::Do(command)) => {
            let settled = decide(rt, alloc, book, gate, pass, by, command)?;
            Ok(told_of(settled))
        }
        (Some(sandbox), Act::Publish) => {
            let command = W::fixed(alloc, &sandbox.layer)?;
            let settled = decide(rt, alloc, book, gate, pass, by, &command)?;
            leave(&mut own.sandbox, settled.accepted);
            Ok(told_of(settled))
        }
        _ => read(rt, alloc, book, gate, pass, own, by, act),
    }
}

// No sandbox is left where it was published.
fn leave<T: Drop>(sandbox: &mut Option<T>, published: bool)
    ensures { sandbox.new ≡ layer_left published sandbox.old }
{
    if published {
        *sandbox = None;
    }
}

fn told_of<R>(settled: Settled<R>) -> Told<R>
    ensures { result ≡ record { place = settled.place; reply = settled.reply } }
{
    Told {
        place: settled.place,
        reply: settled.reply,
    }
}

// Answers an act that commits nothing.
fn read<W: Layered, R: Wait, G: Gate>(
    rt: &R,
    alloc: Global,
    book: &Book<W>,
    gate: &G,
    pass: &mut Pass<W>,
    own: &mut Own<W>,
    by: (u32, u32),
    act: &Act<W::Command>,
) -> Result<Told<W::Reply>, AllocError>
    requires of { IsOf book.now pass.old }
    requires user { numbers_of pass.old ≡ by.0 ∷ [] }
    requires reads { Reads (layer_in W.kept_writes own.old.sandbox) act.now }
    requires laid { IsLaidAt W.content W.after W.sandbox.unfit W.kept_writes (W.content (opening_of book.now))
        (seen pass.old) own.old }
    ensures of { IsOf book.now pass.new }
    ensures same { IsSame pass.old pass.new }
    ensures answered { IfOk result (λ told. IsAnswered (answer_of W.effect W.after W.sandbox) W.after
        (W.content (opening_of book.now)) (sight pass.old) (sight pass.new) by.0 by.1
        (layer_in W.kept_writes own.old.sandbox) act.now told (layer_in W.kept_writes own.new.sandbox)) }
    ensures err { OnErr result (GoesOn (seen pass.old) (seen pass.new) (numbers_of pass.old)) }
    ensures layer { OnErr result (layer_in W.kept_writes own.new.sandbox ≡ layer_in W.kept_writes own.old.sandbox) }
    ensures laid { IsLaidAt W.content W.after W.sandbox.unfit W.kept_writes (W.content (opening_of book.now))
        (seen pass.new) own.new }
    ensures looks { looks pass.old ≤ looks pass.new }
{
    let (user, number) = by;
    let pin = book.pin(rt, alloc, pass)?;
    let place = pin.place();
    gate.at(user, number, 1);
    own.move_to(place);
    let reply = read_in::<W>(alloc, pin.state(), &mut own.sandbox, act)?;
    Ok(Told { place, reply })
}

// Tries the command on the newest version, and commits it where it is accepted.
fn decide<W: Layered, R: Wait, G: Gate>(
    rt: &R,
    alloc: Global,
    book: &Book<W>,
    gate: &G,
    pass: &mut Pass<W>,
    by: (u32, u32),
    command: &W::Command,
) -> Result<Settled<W::Reply>, AllocError>
    requires of { IsOf book.now pass.old }
    requires user { numbers_of pass.old ≡ by.0 ∷ [] }
    ensures of { IsOf book.now pass.new }
    ensures same { IsSame pass.old pass.new }
    ensures decided { IfOk result (λ settled. IsDecided W.effect W.after (W.content (opening_of book.now))
        (sight pass.old) (sight pass.new) by.0 by.1 command.now settled) }
    ensures err { OnErr result (GoesOn (seen pass.old) (seen pass.new) (numbers_of pass.old)) }
    ensures looks { looks pass.old ≤ looks pass.new }
{
    let (user, number) = by;
    let pin = book.pin(rt, alloc, pass)?;
    gate.at(user, number, 1);
    let TriedOf { place, effect } = pin.attempt(alloc, command)?;
    match effect {
        Effect::Rejected(reply) | Effect::Read(reply) => Ok(Settled {
            place,
            accepted: false,
            reply,
        }),
        Effect::Commit(writes, reply) => {
            gate.at(user, number, 2);
            let tried = TriedOf {
                place,
                effect: Effect::Commit(writes, reply),
            };
            let settled = book.commit(rt, alloc, pass, number, command, tried)?;
            Ok(settled)
        }
    }
}

/// The number of the user or command that comes behind so many: they count from 1. More than 2^32 don't fit in memory.
pub(crate) fn number_after(count: usize) -> Result<u32, AllocError>
    ensures { IfOk result (λ number. number ≡ count + 1) }
{
    match u32::try_from(count) {
        Ok(before) if before < u32::MAX => Ok(before + 1),
        _ => Err(AllocError),
    }
}
