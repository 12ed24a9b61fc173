ghost use Rattle.std.specs.Prelude.{◌≡◌, ◌≢◌, pos};

use cube_fixed::Money;

/// A stored cell, by its number in the space of all cells, and what it holds.
#[derive(Clone, Copy, PartialEq, Eq)]
pub struct Entry {
    pub cell: u64,
    pub number: Money,
}

impl Entry {
    // What the entry tells of a cell: its number, or 0 where the cell is another one.
    pub(crate) fn number_for(&self, cell: u64) -> Money
        ensures same { self.now.cell ≡ cell → result ≡ self.now.number }
        ensures other { self.now.cell ≢ cell → result ≡ pos 0 }
    {
        if self.cell == cell {
            self.number
        } else {
            Money::ZERO
        }
    }
}
