ghost use Rattle.std.specs.Prelude.{◌≡◌, ◌*◌, pos};
ghost use Rattle.std.specs.Option.{SomeIff};
ghost use Rattle.cube_fixed.specs.Range.{unit, IsInRange};

use std::marker::Model;

/// One whole unit, in millionths.
pub const UNIT: u64 = 1_000_000;

/// The largest count of millionths on either side of 0.
pub const MAX_MILLIONTHS: u64 = 9_000_000_000_000_000_000;

/// A number: a whole count of millionths, from -9,000,000,000,000 units to 9,000,000,000,000 units.
#[derive(Clone, Copy, Debug, PartialEq, Eq)]
pub struct Money {
    millionths: i64,
}

impl Model for Money {
    ghost use Rattle.std.specs.Prelude.{ℤ};
    ghost use Rattle.cube_fixed.specs.Range.{IsInRange};

    ghost Value = { ℤ };

    ghost view = { λ m. m.millionths };

    ghost invariant = { λ m. IsInRange m.millionths };

    ghost inverse = { λ z. record { millionths = z } };
}

impl Money {
    /// The number 0.
    pub const ZERO: Money = Money { millionths: 0 };

    /// The number with this count of millionths, if that is in range.
    pub fn of(millionths: i64) -> Option<Money>
        ensures { SomeIff result (IsInRange millionths) millionths }
    {
        if millionths.unsigned_abs() <= MAX_MILLIONTHS {
            Some(Money { millionths })
        } else {
            None
        }
    }

    /// The number of so many whole units.
    pub fn of_units(units: u32) -> Money
        ensures { result ≡ pos (units * unit) }
    {
        Money {
            millionths: i64::from(units) * UNIT as i64,
        }
    }

    /// The count of millionths.
    pub fn millionths(self) -> i64
        ensures value { result ≡ self }
        ensures in_range { IsInRange result }
    {
        self.millionths
    }
}
