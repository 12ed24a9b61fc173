ghost use Rattle.std.specs.Prelude.{◌≡◌, ◌+◌, ◌<◌, ◌^◌, length, IsOk, IfOk, OnOk, OnErr};
ghost use Rattle.std.specs.Prelude.{IsSome, MatchOption, None, option_copied, option_map};
ghost use Rattle.std.specs.Option.{ForSome};
ghost use Rattle.version_core.specs.CoreState.{user_at};

use crate::event::Event;
use crate::known::{Known, is_known};
use crate::user::User;
use history::{Entry, Told, World};
use std::alloc::{AllocError, Global};
use std::marker::Model;
use std::snapshot::Snapshot;

/// One history of commits, kept with a state of each version, and the users who pin, try and commit.
#[derive(Drop)]
pub struct Core<W: World> {
    opening: Snapshot<W::State>,
    history: Vec<Entry<W::Writes>>,
    versions: Vec<W::State>,
    memo: Vec<Known>,
    users: Vec<User<W::Command, W::Writes, W::Reply>>,
}

impl<W: World> Model for Core<W> {
    ghost use Rattle.version_core.specs.CoreState.{CoreState};

    ghost Value = { CoreState W.Content W.Command W.Writes W.Reply W.Value };

    ghost use Rattle.version_core.specs.Inside.Stored.{core_of, IsStored};

    ghost view = { λ c. core_of W.after W.cell_value (W.content c.opening.value)
        c.history.items c.memo.items c.users.items };

    ghost invariant = { λ c. IsStored W.content W.effect W.after W.cell_value
        (core_of W.after W.cell_value (W.content c.opening.value) c.history.items c.memo.items c.users.items)
        c.versions.items };
}

impl<W: World> Core<W> {
    ghost use Rattle.version_core.specs.declared.event.Event.{Event};
    ghost use Rattle.version_core.specs.CoreState.{start};
    ghost use Rattle.version_core.specs.Events.{IsStep, TakesNoMemory};
    ghost use Rattle.version_core.specs.Acts.{Act, act_after};
    ghost use Rattle.version_core.specs.OneHistory.{IsOneHistory};

    /// A core of this many users, with an empty history over the content of the state. Users are numbered from 1.
    pub fn start(alloc: Global, state: W::State, users: u32) -> Result<Core<W>, AllocError>
        ensures started { IfOk result (λ core. core ≡ start (W.content state) users) }
    {
        let opening = Snapshot::of(&state);
        let mut versions = Vec::new(alloc);
        versions.push(state)?;
        let mut all = Vec::new(alloc);
        for _ in 0..users {
            all.push(User::new(alloc))?;
        }
        Ok(Core {
            opening,
            history: Vec::new(alloc),
            versions,
            memo: Vec::new(alloc),
            users: all,
        })
    }

    /// Gives the user one command more, which is the user's last. A command's number is below 2^32, so a user has room
    /// for one more while there are fewer than 2^32 - 1.
    pub fn give(&mut self, user: u32, command: W::Command) -> Result<(), AllocError>
        requires user { IsSome (user_at self.old.users user) }
        requires few { ForSome (user_at self.old.users user) (λ found. length found.commands + 1 < 2 ^ 32) }
        ensures given { OnOk result
            (self.new ≡ act_after W.effect W.after W.cell_value self.old (Act.Give user command)) }
        ensures history { IsOneHistory W.effect W.after W.cell_value self.new }
        ensures err { OnErr result (self.new ≡ self.old) }
    {
        let given = self.add_command(user, command);
        self.is_one_history();
        given
    }

    /// Takes one step, and answers whether the event is enabled. Where it is not, nothing changes; where memory runs
    /// out, the core is as it was and the event may come again.
    pub fn step(&mut self, alloc: Global, event: Event) -> Result<bool, AllocError>
        ensures step { IfOk result (IsStep W.effect W.after W.cell_value self.old event self.new) }
        ensures history { IsOneHistory W.effect W.after W.cell_value self.new }
        ensures no_memory { TakesNoMemory event → IsOk result }
        ensures err { OnErr result (self.new ≡ self.old) }
    {
        let enabled = match event {
            Event::Pin(user) => Ok(self.pin(user)),
            Event::Try(user) => self.attempt(alloc, user),
            Event::Commit(user) => self.commit(alloc, user),
            Event::Read(user, cell) => Ok(self.read(user, cell)),
            Event::Keep(user, cell) => self.keep(user, cell),
            Event::Unpin(user) => Ok(self.unpin(user)),
        };
        self.is_one_history();
        enabled
    }

    /// The history so far.
    pub fn history(&self) -> &[Entry<W::Writes>]
        ensures { result.now ≡ self.now.log }
    {
        &self.history
    }

    /// The replies to the user of this number; none where no user has the number.
    pub fn told(&self, user: u32) -> Option<&[Told<W::Reply>]>
        ensures { option_copied result ≡ option_map (λ found. found.told) (user_at self.now.users user) }
    {
        let index = index_of(&self.users, user)?;
        Some(self.users[index].told())
    }

    /// Every core has one legal history.
    fn is_one_history(&self)
        ensures { IsOneHistory W.effect W.after W.cell_value self.now }
    {
        let _ = &self.opening;
    }

    fn add_command(&mut self, user: u32, command: W::Command) -> Result<(), AllocError>
        requires user { IsSome (user_at self.old.users user) }
        requires few { ForSome (user_at self.old.users user) (λ found. length found.commands + 1 < 2 ^ 32) }
        ensures given { OnOk result
            (self.new ≡ act_after W.effect W.after W.cell_value self.old (Act.Give user command)) }
        ensures err { OnErr result (self.new ≡ self.old) }
    {
        let Some(index) = index_of(&self.users, user) else {
            unreachable!()
        };
        self.users[index].give(command)?;
        Ok(())
    }

    /// The user pins the newest version, where a command waits.
    fn pin(&mut self, user: u32) -> bool
        ensures { IsStep W.effect W.after W.cell_value self.old (Event.Pin user) self.new result }
    {
        let place = self.history.len() as u64;
        let Some(index) = index_of(&self.users, user) else {
            return false;
        };
        if self.users[index].next_command().is_none() {
            return false;
        }
        self.users[index].set_pin(place);
        true
    }

    /// The user's next command is tried on the pinned version, where no try is there yet.
    fn attempt(&mut self, alloc: Global, user: u32) -> Result<bool, AllocError>
        ensures step { IfOk result (IsStep W.effect W.after W.cell_value self.old (Event.Try user) self.new) }
        ensures err { OnErr result (self.new ≡ self.old) }
    {
        let Some(index) = index_of(&self.users, user) else {
            return Ok(false);
        };
        let Some(place) = self.users[index].pin() else {
            return Ok(false);
        };
        if self.users[index].tried().is_some() {
            return Ok(false);
        }
        let Some(command) = self.users[index].next_command() else {
            return Ok(false);
        };
        let found = W::attempt(alloc, &mut self.versions[place as usize], command)?;
        self.users[index].take_effect(place, found)?;
        Ok(true)
    }

    /// The user's try enters the history, where the pinned version is still the newest.
    fn commit(&mut self, alloc: Global, user: u32) -> Result<bool, AllocError>
        ensures step { IfOk result (IsStep W.effect W.after W.cell_value self.old (Event.Commit user) self.new) }
        ensures err { OnErr result (self.new ≡ self.old) }
    {
        let newest = self.history.len();
        let Some(index) = index_of(&self.users, user) else {
            return Ok(false);
        };
        let Some(place) = self.users[index].pin() else {
            return Ok(false);
        };
        let Some(tried) = self.users[index].tried() else {
            return Ok(false);
        };
        if place != newest as u64 {
            return Ok(false);
        }
        let next = W::next(alloc, &self.versions[newest], &tried.writes)?;
        self.versions.reserve(1)?;
        self.history.reserve(1)?;
        let (command, writes) = self.users[index].commit(place)?;
        self.versions.push_reserved(next);
        self.history.push_reserved(Entry {
            user,
            command,
            writes,
        });
        Ok(true)
    }

    /// The user finds the kept value of the cell on the pinned version.
    fn read(&self, user: u32, cell: u64) -> bool
        ensures { IsStep W.effect W.after W.cell_value self.now (Event.Read user cell) self.now result }
    {
        let Some(index) = index_of(&self.users, user) else {
            return false;
        };
        let Some(place) = self.users[index].pin() else {
            return false;
        };
        is_known(&self.memo, place, cell)
    }

    /// The cell's value on the pinned version is kept for all users.
    fn keep(&mut self, user: u32, cell: u64) -> Result<bool, AllocError>
        ensures step { IfOk result (IsStep W.effect W.after W.cell_value self.old (Event.Keep user cell) self.new) }
        ensures err { OnErr result (self.new ≡ self.old) }
    {
        let Some(index) = index_of(&self.users, user) else {
            return Ok(false);
        };
        let Some(place) = self.users[index].pin() else {
            return Ok(false);
        };
        if !is_known(&self.memo, place, cell) {
            self.memo.push(Known {
                version: place,
                cell,
            })?;
        }
        Ok(true)
    }

    /// The user gives up the pin and the try.
    fn unpin(&mut self, user: u32) -> bool
        ensures { IsStep W.effect W.after W.cell_value self.old (Event.Unpin user) self.new result }
    {
        let Some(index) = index_of(&self.users, user) else {
            return false;
        };
        if self.users[index].pin().is_none() {
            return false;
        }
        self.users[index].unpin();
        true
    }
}

/// Where the user of this number stands, if there is one.
fn index_of<K: Drop, T: Drop, R: Drop>(users: &[User<K, T, R>], number: u32) -> Option<usize>
    ensures { MatchOption result (user_at users.now number ≡ None)
        (λ index. (number ≡ index + 1) × (index < length users.now)) }
{
    let index = (number as usize).checked_sub(1)?;
    if index < users.len() {
        Some(index)
    } else {
        None
    }
}
