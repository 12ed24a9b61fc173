ghost use Rattle.std.specs.Prelude.{◌≡◌, ◌*◌, pos};
ghost use Rattle.cube_fixed.specs.Arithmetic.{fit};
ghost use Rattle.cube_fixed.specs.Range.{unit};

use crate::money::Money;
use crate::rounding::{MILLIONTHS_PER_UNIT, fitted};

/// What a cell or a formula holds: a number, or the mark of a result that is out of range.
#[derive(Clone, Copy, Debug, PartialEq, Eq)]
pub enum Value {
    /// A number.
    Num(Money),
    /// Out of range. It can't be stored, and is printed `#OVER`.
    Over,
}

impl Value {
    /// The number 0.
    pub const ZERO: Value = Value::Num(Money::ZERO);

    /// The number of so many whole units.
    pub fn of_units(units: u64) -> Value
        ensures { result ≡ fit (pos (units * unit)) }
    {
        fitted(i128::from(units) * MILLIONTHS_PER_UNIT)
    }
}
