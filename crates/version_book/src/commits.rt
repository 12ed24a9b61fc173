ghost use Rattle.std.specs.Prelude.{◌≡◌, ◌+◌, length, IfOk, OnErr};
ghost use Rattle.history.specs.Version.{content_after};
ghost use Rattle.version_book.specs.Lists.{GoesOn};
ghost use Rattle.version_book.specs.Passes.{IsOf, IsSame, looks, number_of, numbers_of, opening_of, seen};
ghost use Rattle.version_book.specs.Commits.{IsTryOf, Settles, SettlesAt};
ghost use Rattle.version_book.specs.Inside.Plays.{Stays};
ghost use Rattle.version_book.specs.Inside.Turns.{HasLooked};

use crate::book::{Book, Pass, PassSeat, Settled, Tried, TriedOf};
use history::{Effect, Entry, World};
use std::alloc::{AllocError, Global};
use std::sync::Wait;

// Who commits: the number of the pass, and that of its command.
#[derive(Clone, Copy)]
struct Committer {
    user: u32,
    number: u32,
}

impl<W: World> Book<W> {
    /// Commits the command of this number, which was tried and accepted. Where no other commit came after the try, the
    /// tried writes are committed, and no command runs under the turn. Otherwise the command runs again, and that run
    /// decides. Where memory runs out nothing is added to the history.
    pub fn commit<R: Wait>(
        &self,
        rt: &R,
        alloc: Global,
        pass: &mut Pass<W>,
        number: u32,
        command: &W::Command,
        tried: Tried<W>,
    ) -> Result<Settled<W::Reply>, AllocError>
        requires of { IsOf self.now pass.old }
        requires tried { IsTryOf W.effect W.after (W.content (opening_of self.now)) (seen pass.old) command.now tried }
        ensures of { IsOf self.now pass.new }
        ensures same { IsSame pass.old pass.new }
        ensures looks { looks pass.new ≡ looks pass.old + 1 }
        ensures settled { IfOk result (λ settled. Settles W.effect W.after (W.content (opening_of self.now))
            (seen pass.old) (seen pass.new) (numbers_of pass.old) (number_of pass.old) number command.now settled) }
        ensures err { OnErr result (GoesOn (seen pass.old) (seen pass.new) (numbers_of pass.old)) }
    {
        self.take_turn(rt, &mut pass.place);
        let count = self.look(&mut pass.place);
        let by = Committer {
            user: pass.number,
            number,
        };
        let settled = self.settle(alloc, &mut pass.place, count, by, command, tried);
        self.free_turn(&mut pass.place);
        settled
    }

    // Under the turn: the command's effect on the newest version decides.
    fn settle(
        &self,
        alloc: Global,
        place: &mut PassSeat<W>,
        count: u64,
        by: Committer,
        command: &W::Command,
        tried: Tried<W>,
    ) -> Result<Settled<W::Reply>, AllocError>
        requires looked { HasLooked self.now place.old }
        requires count { count ≡ length place.old.me.0.seen }
        requires user { by.user ≡ place.old.me.0.number }
        requires tried { count ≡ tried.place → tried.effect
            ≡ W.effect (content_after W.after (W.content (opening_of self.now)) place.old.me.0.seen) command.now }
        ensures looked { HasLooked self.now place.new }
        ensures stays { Stays place.old.me.0 place.new.me.0 }
        ensures settled { IfOk result (λ settled. SettlesAt W.effect W.after (W.content (opening_of self.now))
            place.old.me.0.seen place.new.me.0.seen by.user by.number command.now settled) }
        ensures err { OnErr result (place.new.me.0.seen ≡ place.old.me.0.seen) }
    {
        let mut ledger = self.take_ledger(place);
        let Ok(effect) = effect_now::<W>(alloc, &mut ledger.state, count, command, tried) else {
            self.put_ledger(place, ledger);
            return Err(AllocError);
        };
        // All memory is taken before the entry is counted.
        match effect {
            Effect::Commit(writes, reply) => {
                let Ok(state) = ledger.prepare(alloc, &writes) else {
                    self.put_ledger(place, ledger);
                    return Err(AllocError);
                };
                let entry = Entry {
                    user: by.user,
                    command: by.number,
                    writes,
                };
                self.put_grown(place, ledger, entry, state);
                Ok(settled_at(count, true, reply))
            }
            Effect::Rejected(reply) | Effect::Read(reply) => {
                self.put_ledger(place, ledger);
                Ok(settled_at(count, false, reply))
            }
        }
    }
}

// What the command does on the newest state, whose version has the number `count`. Where that is the version of the
// try, no command runs.
fn effect_now<W: World>(
    alloc: Global,
    state: &mut W::State,
    count: u64,
    command: &W::Command,
    tried: Tried<W>,
) -> Result<Effect<W::Writes, W::Reply>, AllocError>
    requires tried { count ≡ tried.place → tried.effect ≡ W.effect (W.content state.old) command.now }
    ensures effect { IfOk result (λ effect. effect ≡ W.effect (W.content state.old) command.now) }
    ensures content { W.content state.new ≡ W.content state.old }
{
    if count == tried.place {
        let TriedOf { place: _, effect } = tried;
        return Ok(effect);
    }
    W::attempt(alloc, state, command)
}

fn settled_at<R>(place: u64, accepted: bool, reply: R) -> Settled<R>
    ensures { result ≡ record { place = place; accepted = accepted; reply = reply } }
{
    Settled {
        place,
        accepted,
        reply,
    }
}
