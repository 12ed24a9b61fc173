ghost use Rattle.std.specs.Prelude.{◌≡◌, ℕ, ◌%◌, ◌<◌, ◌⊎◌, ◌∷◌, true, Result};
ghost use Rattle.memo_cells.specs.Knowledge.{Grew, IsNumber, IsRight, KeepsAt, Knows, LooksAt, Names, is_value};
ghost use Rattle.memo_cells.specs.Seats.{IsAt, claimed, knowledge, slots_of, version_of};
ghost use Rattle.memo_cells.specs.Values.{cell_value};
ghost use Rattle.memo_cells.specs.declared.answers.Look.TheVariants.{Other as look_other};
ghost use Rattle.memo_cells.specs.declared.answers.Kept.TheVariants.{Here, Other as kept_other};

use crate::answers::{Kept, Look};
use crate::coding::{value_of, word_of};
use crate::memo::Memo;
use crate::seat::MemoSeat;
use cube_fixed::Value;

impl Memo {
    // The slot of a cell.
    fn slot_of(&self, cell: u64) -> usize
        ensures slot { result ≡ cell % slots_of self.now }
        ensures below { result < slots_of self.now }
    {
        (cell % self.slots) as usize
    }

    /// The cell's value on the memo's version, where it is kept. It takes no memory and doesn't wait.
    pub fn look(&self, seat: &mut MemoSeat, cell: u64) -> Look
        requires seat { IsAt self.now seat.old }
        requires cell { IsNumber cell }
        ensures seat { IsAt self.now seat.new }
        ensures value { IsRight (cell_value (version_of self.now)) cell result }
        ensures learned { LooksAt (knowledge seat.old) (knowledge seat.new) cell result }
        ensures slot { (other : ℕ) → result ≡ look_other other → other % slots_of self.now ≡ cell % slots_of self.now }
        ensures known { Knows (knowledge seat.old) cell → is_value result ≡ true }
        ensures named { (other : ℕ) → Names (knowledge seat.old) cell other → result ≡ look_other other }
        ensures grew { Grew (knowledge seat.old) (knowledge seat.new) }
        ensures claims { claimed seat.new ≡ claimed seat.old }
    {
        let slot = self.slot_of(cell);
        let key = self.load(seat, 2 * slot);
        if key == 0 {
            return Look::Empty;
        }
        if key != cell + 1 {
            return Look::Other(key - 1);
        }
        let word = self.load(seat, 2 * slot + 1);
        if word == 0 {
            return Look::Empty;
        }
        Look::Value(value_of(word))
    }

    /// Takes a cell's slot for its value to come, unless the slot is for another cell. It takes no memory and doesn't
    /// wait.
    pub fn reserve(&self, seat: &mut MemoSeat, cell: u64)
        requires seat { IsAt self.now seat.old }
        requires cell { IsNumber cell }
        ensures seat { IsAt self.now seat.new }
        ensures grew { Grew (knowledge seat.old) (knowledge seat.new) }
        ensures zeros { (knowledge seat.new).zeros ≡ (knowledge seat.old).zeros }
        ensures claims { (claimed seat.new ≡ claimed seat.old) ⊎ (claimed seat.new ≡ cell ∷ claimed seat.old) }
    {
        let slot = self.slot_of(cell);
        self.claim(seat, slot, cell);
    }

    /// Keeps a cell's value, unless the slot is for another cell. It takes no memory and doesn't wait.
    pub fn keep(&self, seat: &mut MemoSeat, cell: u64, value: &Value) -> Kept
        requires seat { IsAt self.now seat.old }
        requires cell { IsNumber cell }
        requires value { value.now ≡ cell_value (version_of self.now) cell }
        ensures seat { IsAt self.now seat.new }
        ensures learned { KeepsAt (knowledge seat.new) cell result }
        ensures slot { (other : ℕ) → result ≡ kept_other other → other % slots_of self.now ≡ cell % slots_of self.now }
        ensures known { Knows (knowledge seat.old) cell → result ≡ Here }
        ensures named { (other : ℕ) → Names (knowledge seat.old) cell other → result ≡ kept_other other }
        ensures grew { Grew (knowledge seat.old) (knowledge seat.new) }
        ensures zeros { (knowledge seat.new).zeros ≡ (knowledge seat.old).zeros }
        ensures claims { (claimed seat.new ≡ claimed seat.old) ⊎ (claimed seat.new ≡ cell ∷ claimed seat.old) }
    {
        let slot = self.slot_of(cell);
        let key = self.claim(seat, slot, cell);
        if key != 0 && key != cell + 1 {
            return Kept::Other(key - 1);
        }
        self.put(seat, slot, cell, word_of(value));
        Kept::Here
    }
}
