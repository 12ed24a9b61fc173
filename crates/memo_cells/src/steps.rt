//! The steps on one word. The seat then knows the word that is there, and what was found is what it knew.
ghost use Rattle.std.specs.Prelude.{◌≡◌, ◌+◌, ◌*◌, ◌<◌, ◌%◌, ◌^◌, ◌&&◌, true};
ghost use Rattle.memo_cells.specs.Seats.{IsAt, key_at, value_at, has_word, slots_of, version_of};
ghost use Rattle.memo_cells.specs.Values.{cell_value, value_in};
ghost use Rattle.memo_cells.specs.Inside.Plays.{Found, after_load, after_claim, after_put};

use crate::memo::Memo;
use crate::plays::{Claims, Loads, Puts};
use crate::seat::MemoSeat;

impl Memo {
    // The word at this place.
    pub(crate) fn load(&self, seat: &mut MemoSeat, at: usize) -> u64
        requires seat { IsAt self.now seat.old }
        requires at { at < 2 * slots_of self.now }
        ensures seat { IsAt self.now seat.new }
        ensures view { seat.new.seat.me.0 ≡ after_load seat.old.seat.me.0 at result }
        ensures found { Found seat.old.seat.me.0 at result }
    {
        self.table.shared.load::<Loads>(&mut seat.seat, at)
    }

    // The key of a slot as it was; where it was 0 it is now the cell's.
    pub(crate) fn claim(&self, seat: &mut MemoSeat, slot: usize, cell: u64) -> u64
        requires seat { IsAt self.now seat.old }
        requires slot { slot ≡ cell % slots_of self.now }
        requires below { slot < slots_of self.now }
        requires cell { cell + 1 < 2 ^ 64 }
        ensures seat { IsAt self.now seat.new }
        ensures view { seat.new.seat.me.0 ≡ after_claim seat.old.seat.me.0 (key_at slot) (cell + 1) result }
        ensures found { Found seat.old.seat.me.0 (key_at slot) result }
    {
        self.table
            .shared
            .compare_exchange::<Claims>(&mut seat.seat, 2 * slot, 0, cell + 1)
    }

    // The value of a slot as it was; where it was 0 it is now this word, for the cell that the key is known to name.
    pub(crate) fn put(&self, seat: &mut MemoSeat, slot: usize, cell: u64, word: u64) -> u64
        requires seat { IsAt self.now seat.old }
        requires below { slot < slots_of self.now }
        requires cell { has_word seat.old.seat.me.0.known (key_at slot) (cell + 1) ≡ true }
        requires some { 0 < word }
        requires value { value_in word ≡ cell_value (version_of self.now) cell }
        ensures seat { IsAt self.now seat.new }
        ensures view { seat.new.seat.me.0 ≡ after_put seat.old.seat.me.0 (value_at slot) word result }
        ensures found { Found seat.old.seat.me.0 (value_at slot) result }
    {
        self.table
            .shared
            .compare_exchange::<Puts>(&mut seat.seat, 2 * slot + 1, 0, word)
    }
}
