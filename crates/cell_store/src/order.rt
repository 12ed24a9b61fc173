ghost use Rattle.std.specs.Prelude.{◌≡◌, ℕ, Bool, pos};
ghost use Rattle.std.specs.Ordering.{int_eq};

use crate::entry::Entry;

/// What has a place in the order of the cells.
pub trait Placed {
    ghost cell: { Self → ℕ };

    fn cell(&self) -> u64
        ensures { result ≡ cell self.now };
}

/// What pages hold: at most one for each cell.
pub trait Stored: Placed + Copy + Drop {
    ghost is_gone: { Self → Bool };

    /// Whether it takes its cell out of the pages, in place of standing there.
    fn is_gone(&self) -> bool
        ensures { result ≡ is_gone self.now };
}

impl Placed for Entry {
    ghost cell = { λ entry. entry.cell };

    fn cell(&self) -> u64 {
        self.cell
    }
}

impl Stored for Entry {
    ghost is_gone = { λ entry. int_eq entry.number (pos 0) };

    fn is_gone(&self) -> bool {
        self.number.millionths() == 0
    }
}
