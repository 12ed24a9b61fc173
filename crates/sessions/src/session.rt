ghost use Rattle.std.specs.Prelude.{◌≡◌, ◌<◌, [], None, length, MatchBool, IfOk, OnOk, OnErr};
ghost use Rattle.sandbox.specs.Sandboxes.{answer as answer_of};
ghost use Rattle.version_book.specs.Passes.{opening_of};
ghost use Rattle.sessions.specs.Sessions.{IsRunning};
ghost use Rattle.sessions.specs.Answers.{HasAnsweredNext, HasAnsweredMore, HasGoneOn, layer_of};

use crate::answer::{answer, number_after};
use crate::own::OwnOf;
use cube_outside::Gate;
use history::{Told, World};
use lists::ListOf;
use sandbox::{Act, Layered};
use std::alloc::{AllocError, Global};
use std::sync::Wait;
use version_book::{Book, Ledger, Pass, PassOf};

/// One user's acts, the pass by which they act, the replies so far, and the user's sandbox, if one is open. It may go
/// to another thread.
#[derive(Drop)]
pub struct SessionOf<L, C, T, K, R, Y> {
    pub(crate) pass: PassOf<L, C, T>,
    pub(crate) user: u32,
    pub(crate) commands: ListOf<K>,
    pub(crate) told: Vec<Told<R>>,
    pub(crate) own: OwnOf<Y, C>,
}

/// A session at the book of a world.
pub type Session<W> = SessionOf<
    Ledger<W>,
    <W as World>::State,
    <W as World>::Writes,
    Act<<W as World>::Command>,
    <W as World>::Reply,
    <W as Layered>::Layer,
>;

impl<W: Layered> Session<W> {
    /// The session of a user whose number is that of the pass. No command is answered yet.
    pub fn new(
        alloc: Global,
        pass: Pass<W>,
        user: u32,
        commands: ListOf<Act<W::Command>>,
    ) -> Session<W>
        ensures pass { result.pass ≡ pass }
        ensures user { result.user ≡ user }
        ensures commands { result.commands ≡ commands }
        ensures told { result.told.items ≡ [] }
        ensures own { result.own ≡ record { sandbox = None; laid_at = 0 } }
    {
        SessionOf {
            pass,
            user,
            commands,
            told: Vec::new(alloc),
            own: OwnOf {
                sandbox: None,
                laid_at: 0,
            },
        }
    }

    /// Answers the next command, and tells whether there was one left.
    pub fn step<R: Wait, G: Gate>(
        &mut self,
        rt: &R,
        alloc: Global,
        book: &Book<W>,
        gate: &G,
    ) -> Result<bool, AllocError>
        requires running { IsRunning (answer_of W.effect W.after W.sandbox) W.after W.content W.sandbox.unfit
            W.kept_writes book.now self.old }
        ensures running { IsRunning (answer_of W.effect W.after W.sandbox) W.after W.content W.sandbox.unfit
            W.kept_writes book.now self.new }
        ensures user { self.new.user ≡ self.old.user }
        ensures commands { self.new.commands ≡ self.old.commands }
        ensures told { IfOk result (λ more. MatchBool more
            (HasAnsweredNext (answer_of W.effect W.after W.sandbox) W.after W.kept_writes
            (W.content (opening_of book.now)) self.old self.new)
            ((length self.old.told.items ≡ length self.old.commands)
            × (self.new.told.items ≡ self.old.told.items)
            × (layer_of W.kept_writes self.new ≡ layer_of W.kept_writes self.old))) }
        ensures err { OnErr result ((length self.old.told.items < length self.old.commands)
            × (self.new.told.items ≡ self.old.told.items)
            × (layer_of W.kept_writes self.new ≡ layer_of W.kept_writes self.old)) }
        ensures gone_on { HasGoneOn self.old self.new }
    {
        let Some(command) = self.commands.as_slice().get(self.told.len()) else {
            return Ok(false);
        };
        self.told.reserve(1)?;
        let number = number_after(self.told.len())?;
        gate.at(self.user, number, 0);
        let told = answer(
            rt,
            alloc,
            book,
            gate,
            &mut self.pass,
            &mut self.own,
            (self.user, number),
            command,
        )?;
        self.told.push_reserved(told);
        gate.at(self.user, number, 3);
        Ok(true)
    }

    /// Answers all commands that are left, one after another.
    pub fn run<R: Wait, G: Gate>(
        &mut self,
        rt: &R,
        alloc: Global,
        book: &Book<W>,
        gate: &G,
    ) -> Result<(), AllocError>
        requires running { IsRunning (answer_of W.effect W.after W.sandbox) W.after W.content W.sandbox.unfit
            W.kept_writes book.now self.old }
        ensures running { IsRunning (answer_of W.effect W.after W.sandbox) W.after W.content W.sandbox.unfit
            W.kept_writes book.now self.new }
        ensures user { self.new.user ≡ self.old.user }
        ensures commands { self.new.commands ≡ self.old.commands }
        ensures told { OnOk result (HasAnsweredMore (answer_of W.effect W.after W.sandbox) W.after W.kept_writes
            (W.content (opening_of book.now)) self.old self.new) }
        ensures all { OnOk result (length self.new.told.items ≡ length self.new.commands) }
        // out of memory, too, nothing that was told is taken away
        ensures gone_on { HasGoneOn self.old self.new }
    {
        while self.told.len() < self.commands.as_slice().len() {
            self.step(rt, alloc, book, gate)?;
        }
        Ok(())
    }

    /// The pass, and the replies, in the order of the commands.
    pub fn finish(self) -> (Pass<W>, ListOf<Told<W::Reply>>)
        ensures pass { result.0 ≡ self.pass }
        ensures told { result.1 ≡ self.told.items }
    {
        let SessionOf {
            pass,
            user: _,
            commands: _,
            told,
            own: _,
        } = self;
        (pass, ListOf::new(told))
    }
}
