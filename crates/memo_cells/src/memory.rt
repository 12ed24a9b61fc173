ghost use Rattle.std.specs.Prelude.{◌≡◌, ◌⊎◌, ℕ, Bool, true, Ok, IfOk, IfSome, is_some, MatchResult};
ghost use Rattle.cube_fixed.specs.declared.value.Value.{Value};
ghost use Rattle.memo_cells.specs.Knowledge.{Grew, IsNumber, IsRight, KeepsAt, Knowledge, Knows, LooksAt, Names};
ghost use Rattle.memo_cells.specs.Knowledge.{NamesOther, is_value};
ghost use Rattle.memo_cells.specs.declared.answers.Look.TheVariants.{Other as look_other};
ghost use Rattle.memo_cells.specs.declared.answers.Kept.TheVariants.{Here, Other as kept_other};

use crate::answers::{Kept, Look};
use cube_fixed::Value;
use std::alloc::AllocError;

/// Where a reader looks for values of cells, and keeps those that it has worked out. Who reads over any memory needs no
/// more of it than this.
pub trait Memory {
    /// The values of the cells. They stay the same.
    ghost values: { Self → ℕ → Value };
    /// What is known of the values that are kept.
    ghost known: { Self → Knowledge };
    /// The cells whose values are held for this reader alone, since their slots are for other cells.
    ghost holds: { Self → ℕ → Bool };
    /// Whether fewer are held than may be. Else it begins again with none.
    ghost has_room: { Self → Bool };

    /// A cell's value, where it is kept.
    fn look(&mut self, cell: u64) -> Look
        requires cell { IsNumber cell }
        ensures value { IsRight (values self.old) cell result }
        ensures learned { LooksAt (known self.old) (known self.new) cell result }
        ensures known { Knows (known self.old) cell → is_value result ≡ true }
        ensures named { (other : ℕ) → Names (known self.old) cell other → result ≡ look_other other }
        ensures grew { Grew (known self.old) (known self.new) }
        ensures values { values self.new ≡ values self.old }
        ensures holds { holds self.new ≡ holds self.old }
        ensures room { has_room self.new ≡ has_room self.old };

    /// A cell's value that is held for this reader alone.
    fn recall(&self, cell: u64) -> Option<Value>
        ensures value { IfSome result (λ value. value ≡ values self.now cell) }
        ensures holds { is_some result ≡ holds self.now cell };

    /// Takes the slot of a cell for the value to come, unless the slot is for another cell.
    fn reserve(&mut self, cell: u64)
        requires cell { IsNumber cell }
        ensures grew { Grew (known self.old) (known self.new) }
        ensures zeros { (known self.new).zeros ≡ (known self.old).zeros }
        ensures values { values self.new ≡ values self.old }
        ensures holds { holds self.new ≡ holds self.old }
        ensures room { has_room self.new ≡ has_room self.old };

    /// Keeps a cell's value. Where its slot is for another cell it is held for this reader alone. An error means that
    /// there was no memory to hold it; nothing else is lost. What was held stays held where there was room.
    fn keep(&mut self, cell: u64, value: &Value) -> Result<Kept, AllocError>
        requires cell { IsNumber cell }
        requires value { value.now ≡ values self.old cell }
        ensures learned { MatchResult result (KeepsAt (known self.new) cell) (λ _. NamesOther (known self.new) cell) }
        ensures known { Knows (known self.old) cell → result ≡ Ok Here }
        ensures named { (other : ℕ) → Names (known self.old) cell other
            → IfOk result (λ kept. kept ≡ kept_other other) }
        ensures grew { Grew (known self.old) (known self.new) }
        ensures zeros { (known self.new).zeros ≡ (known self.old).zeros }
        ensures values { values self.new ≡ values self.old }

        // what is held afterwards
        ensures held { (other : ℕ) → result ≡ Ok (kept_other other) → holds self.new cell ≡ true }
        ensures stays { has_room self.old ≡ true → (other : ℕ) → holds self.old other ≡ true
            → holds self.new other ≡ true }
        ensures before { (other : ℕ) → holds self.new other ≡ true → (holds self.old other ≡ true) ⊎ (other ≡ cell) };
}
