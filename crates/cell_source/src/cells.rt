ghost use Rattle.std.specs.Prelude.{◌≡◌, ℕ, ◌<◌, IfOk, OnOk};
ghost use Rattle.cube_fixed.specs.declared.value.Value.{Value as AnyValue};

use cube_fixed::Value;
use std::alloc::{AllocError, Global};

/// Who knows the values of the cells of a version. Asking changes none of them.
pub trait Cells {
    /// What is known of the questions so far: the cells that were asked for, how many they were, or nothing.
    ghost Asked: { Type 0 };
    /// The values of the cells.
    ghost values: { Self → ℕ → AnyValue };
    /// How many cells there are. The numbers below it are theirs.
    ghost size: { Self → ℕ };

    ghost asked: { Self → Asked };
    /// The same after one question more, for this cell.
    ghost after_asking: { Asked → ℕ → Asked };

    /// The value of a cell.
    fn value(&mut self, alloc: Global, cell: u64) -> Result<Value, AllocError>
        requires { cell < size self.old }
        ensures value { IfOk result (λ value. value ≡ values self.old cell) }
        ensures asked { OnOk result (asked self.new ≡ after_asking (asked self.old) cell) }
        ensures values { values self.new ≡ values self.old }
        ensures size { size self.new ≡ size self.old };
}
