ghost use Rattle.std.specs.Prelude.{◌≡◌, ◌+◌, ◌<◌, ◌^◌, length, OnOk, OnErr, IfOk, IsSome, IfSome};
ghost use Rattle.std.specs.Option.{option_copied};
ghost use Rattle.history.specs.declared.effect.Effect.{Effect};

use history::{Effect, Told};
use std::alloc::{AllocError, Global};
use std::marker::Model;

/// An accepted command that was tried: what it would write, and its reply.
#[derive(Drop)]
pub struct Tried<T, R> {
    pub writes: T,
    pub reply: R,
}

/// One user of the core: the commands, the replies to the first of them, the number of the pinned version, and the
/// next command's accepted try on that version.
#[derive(Drop)]
pub struct User<K, T, R> {
    commands: Vec<K>,
    told: Vec<Told<R>>,
    pin: Option<u64>,
    tried: Option<Tried<T, R>>,
}

impl<K, T, R> Model for User<K, T, R> {
    ghost use Rattle.version_core.specs.CoreState.{UserState};

    ghost Value = { UserState K T R };

    ghost view = { λ u. record { commands = u.commands.items; told = u.told.items; pin = u.pin; tried = u.tried } };
}

impl<K: Drop, T: Drop, R: Drop> User<K, T, R> {
    ghost use Rattle.version_core.specs.CoreState.{new_user, next_command, given};
    ghost use Rattle.version_core.specs.Events.{pinned, unpinned, answered, after_try};

    pub fn new(alloc: Global) -> User<K, T, R>
        ensures { result ≡ new_user }
    {
        User {
            commands: Vec::new(alloc),
            told: Vec::new(alloc),
            pin: None,
            tried: None,
        }
    }

    /// How many commands were given.
    pub fn commands_len(&self) -> usize
        ensures { result ≡ length self.now.commands }
    {
        self.commands.len()
    }

    /// The replies to the answered commands.
    pub fn told(&self) -> &[Told<R>]
        ensures { result.now ≡ self.now.told }
    {
        &self.told
    }

    /// The first command that was not answered.
    pub fn next_command(&self) -> Option<&K>
        ensures { option_copied result ≡ next_command self.now }
    {
        self.commands.get(self.told.len())
    }

    /// The number of the pinned version.
    pub fn pin(&self) -> Option<u64>
        ensures { result ≡ self.now.pin }
    {
        self.pin
    }

    /// The accepted try on the pinned version.
    pub fn tried(&self) -> Option<&Tried<T, R>>
        ensures { option_copied result ≡ self.now.tried }
    {
        self.tried.as_ref()
    }

    pub fn give(&mut self, command: K) -> Result<(), AllocError>
        ensures ok { OnOk result (self.new ≡ given self.old command) }
        ensures err { OnErr result (self.new ≡ self.old) }
    {
        self.commands.push(command)?;
        Ok(())
    }

    pub fn set_pin(&mut self, place: u64)
        ensures { self.new ≡ pinned self.old place }
    {
        self.pin = Some(place);
        self.tried = None;
    }

    pub fn unpin(&mut self)
        ensures { self.new ≡ unpinned self.old }
    {
        self.pin = None;
        self.tried = None;
    }

    /// The next command was tried on the pinned version, with this effect.
    pub fn take_effect(&mut self, place: u64, found: Effect<T, R>) -> Result<(), AllocError>
        ensures ok { OnOk result (self.new ≡ after_try self.old place found) }
        ensures err { OnErr result (self.new ≡ self.old) }
    {
        match found {
            Effect::Commit(writes, reply) => {
                self.tried = Some(Tried { writes, reply });
                Ok(())
            }
            Effect::Rejected(reply) | Effect::Read(reply) => self.answer(place, reply),
        }
    }

    /// The next command is answered.
    pub fn answer(&mut self, place: u64, reply: R) -> Result<(), AllocError>
        ensures ok { OnOk result (self.new ≡ answered self.old place reply) }
        ensures err { OnErr result (self.new ≡ self.old) }
    {
        self.told.push(Told { place, reply })?;
        self.unpin();
        Ok(())
    }

    /// The next command is committed: its try is handed over with the command's number, and its reply is given.
    pub fn commit(&mut self, place: u64) -> Result<(u32, T), AllocError>
        requires tried { IsSome self.old.tried }
        requires few { length self.old.told + 1 < 2 ^ 32 }
        ensures number { IfOk result (λ committed. committed.0 ≡ length self.old.told + 1) }
        ensures writes { IfOk result (λ committed. IfSome self.old.tried (λ tried. committed.1 ≡ tried.writes)) }
        ensures ok { OnOk result (IfSome self.old.tried (λ tried. self.new ≡ answered self.old place tried.reply)) }
        ensures err { OnErr result (self.new ≡ self.old) }
    {
        self.told.reserve(1)?;
        let number = self.told.len() as u32 + 1;
        let Some(Tried { writes, reply }) = self.tried.take() else {
            unreachable!()
        };
        self.told.push_reserved(Told { place, reply });
        self.pin = None;
        Ok((number, writes))
    }
}
