//! The steps on the shared words. Each tells what the rule then knows of the pass.
ghost use Rattle.std.specs.Prelude.{◌≡◌, ℕ, ◌<◌, ◌++◌, [], ◌∷◌, None, Some, length, slice_get, vec_len, vec_capacity};
ghost use Rattle.version_book.specs.Lists.{GoesOn};
ghost use Rattle.version_book.specs.Passes.{IsAt, opening_of};
ghost use Rattle.version_book.specs.Inside.Plays.{staged, saw, grown, looks};
ghost use Rattle.version_book.specs.declared.pass_view.Stage.TheVariants.{Idle, Turn, Looked, Away};
ghost use Rattle.version_book.specs.Numbers.{numbers};

use crate::book::{Book, PassSeat};
use crate::ledger::Ledger;
use crate::rule::{Counts, Frees, Looks, Puts, Takes, Turns};
use history::{Entry, World};
use std::sync::Wait;
use std::thread;

impl<W: World> Book<W> {
    // Waits until no pass has the turn, and takes it.
    pub(crate) fn take_turn<R: Wait>(&self, rt: &R, place: &mut PassSeat<W>)
        requires at { IsAt self.now place.old }
        requires idle { place.old.me.0.stage ≡ Idle }
        ensures at { IsAt self.now place.new }
        ensures me { place.new.me ≡ (staged place.old.me.0 Turn, place.old.me.1) }
    {
        for _ in rt.forever() {
            if self.table.shared.compare_exchange::<Turns>(place, 0, 0, 1) == 0 {
                break;
            }
            thread::yield_now();
        }
    }

    // The length of the history, all of which is then seen.
    pub(crate) fn look(&self, place: &mut PassSeat<W>) -> u64
        requires at { IsAt self.now place.old }
        requires turn { place.old.me.0.stage ≡ Turn }
        ensures at { IsAt self.now place.new }
        ensures me { place.new.me ≡ (saw place.old.me.0 place.new.me.0.seen, place.old.me.1) }
        ensures count { result ≡ length place.new.me.0.seen }
        ensures seen { GoesOn place.old.me.0.seen place.new.me.0.seen (numbers place.old.me.0) }
        ensures older { (k : ℕ) (old : _) → slice_get place.old.me.0.older k ≡ Some old
            → GoesOn old.seen place.new.me.0.seen old.numbers }
    {
        self.table.shared.load::<Looks>(place, 1)
    }

    // The ledger, which has the history that was seen under this turn.
    pub(crate) fn take_ledger(&self, place: &mut PassSeat<W>) -> Ledger<W>
        requires at { IsAt self.now place.old }
        requires looked { place.old.me.0.stage ≡ Looked }
        requires hand { place.old.me.1 ≡ [] }
        ensures at { IsAt self.now place.new }
        ensures me { place.new.me ≡ (staged place.old.me.0 Away, (0, None) ∷ []) }
        ensures history { result.history.items ≡ place.old.me.0.seen }
        ensures opening { result.opening.value ≡ opening_of self.now }
    {
        self.table.shared.load::<Takes>(place, 0);
        match self.table.shared.exchange(place, 0, None) {
            Some(ledger) => ledger,
            None => unreachable!(),
        }
    }

    // Puts the ledger back as it was.
    pub(crate) fn put_ledger(&self, place: &mut PassSeat<W>, ledger: Ledger<W>)
        requires at { IsAt self.now place.old }
        requires away { place.old.me.0.stage ≡ Away }
        requires hand { place.old.me.1 ≡ (0, None) ∷ [] }
        requires history { ledger.history.items ≡ place.old.me.0.seen }
        requires opening { ledger.opening.value ≡ opening_of self.now }
        ensures at { IsAt self.now place.new }
        ensures me { place.new.me ≡ (staged place.old.me.0 Looked, []) }
    {
        self.table.shared.exchange(place, 0, Some(ledger));
        self.table.shared.load::<Puts>(place, 0);
    }

    // Counts one entry more, which is the pass's, and puts the ledger back with it.
    pub(crate) fn put_grown(
        &self,
        place: &mut PassSeat<W>,
        ledger: Ledger<W>,
        entry: Entry<W::Writes>,
        state: W::State,
    )
        requires at { IsAt self.now place.old }
        requires away { place.old.me.0.stage ≡ Away }
        requires hand { place.old.me.1 ≡ (0, None) ∷ [] }
        requires history { ledger.history.items ≡ place.old.me.0.seen }
        requires opening { ledger.opening.value ≡ opening_of self.now }
        requires room { vec_len ledger.history < vec_capacity ledger.history }
        requires own { entry.user ≡ place.old.me.0.number }
        requires state { W.content state ≡ W.after (W.content ledger.state) entry.writes }
        ensures at { IsAt self.now place.new }
        ensures me { place.new.me ≡ (staged (grown place.old.me.0 (place.old.me.0.seen ++ entry ∷ [])) Looked, []) }
    {
        let ledger = ledger.grown(entry, state);
        let count = ledger.history.len() as u64;
        self.table.shared.exchange(place, 0, Some(ledger));
        self.table.shared.store::<Counts>(place, 1, count);
        self.table.shared.load::<Puts>(place, 0);
    }

    // Gives the turn back.
    pub(crate) fn free_turn(&self, place: &mut PassSeat<W>)
        requires at { IsAt self.now place.old }
        requires looked { place.old.me.0.stage ≡ Looked }
        ensures at { IsAt self.now place.new }
        ensures me { place.new.me ≡ (staged place.old.me.0 Idle, place.old.me.1) }
    {
        self.table.shared.store::<Frees>(place, 0, 0);
    }
}
