ghost use Rattle.std.specs.Prelude.{◌≡◌, ℕ, ◌+◌, Result};
ghost use Rattle.cube_fixed.specs.declared.value.Value.{Value as AnyValue};

use cube_fixed::Value;

/// Who knows the values of leaf cells.
pub trait Leaves {
    type Fault;
    /// What is known of the calls so far: all of them with their answers, or no more than their count.
    ghost Calls: { Type 0 };

    ghost calls: { Self → Calls };
    /// The same after one call more, for this cell and with this answer.
    ghost after_call: { Calls → ℕ → Result AnyValue Self.Fault → Calls };
    /// How many calls there were.
    ghost count: { Calls → ℕ };

    /// The value of a leaf cell.
    fn leaf(&mut self, cell: u64) -> Result<Value, Self::Fault>
        ensures { calls self.new ≡ after_call (calls self.old) cell result };

    ghost counted: { (before : Calls) → (cell : ℕ) → (answer : Result AnyValue Self.Fault)
        → count (after_call before cell answer) ≡ count before + 1 };
}
