ghost use Rattle.std.specs.Prelude.{◌≡◌, ◌≢◌, ℕ, ◌<◌, ◌≤◌, true, None, Some, IfSome, MatchOption};
ghost use Rattle.cell_store.specs.Entries.{cells_of};
ghost use Rattle.stored_laws.specs.Stored.{stored_in};
ghost use Rattle.sparse_sum.specs.Live.{is_live};
ghost use Rattle.sparse_sum.specs.Inside.First.{IsNext};

use cell_store::{CellSet, Entry, Store};
use cube_fixed::Money;

/// The first cell at or above this number that is stored or fed, and the number that is stored in it.
pub fn next_live<W: CellSet>(stored: &Store, fed: &W, from: u64) -> Option<(u64, Option<Money>)>
    ensures next { MatchOption result
        ((n : ℕ) → from ≤ n → is_live (cells_of stored.now) (W.cells fed.now) n ≢ true)
        (λ next. IsNext (is_live (cells_of stored.now) (W.cells fed.now)) from next.0) }
    ensures stored { IfSome result (λ next. next.1 ≡ stored_in stored.now next.0) }
{
    match stored.entry_from(from) {
        Some(entry) => match fed.next_from(from) {
            Some(cell) => Some(first_of(entry, cell)),
            None => Some((entry.cell, Some(entry.number))),
        },
        None => match fed.next_from(from) {
            Some(cell) => Some((cell, None)),
            None => None,
        },
    }
}

// The stored cell, unless the fed one comes before it.
fn first_of(entry: Entry, fed: u64) -> (u64, Option<Money>)
    ensures fed { fed < entry.cell → result ≡ (fed, None) }
    ensures stored { entry.cell ≤ fed → result ≡ (entry.cell, Some entry.number) }
{
    if fed < entry.cell {
        (fed, None)
    } else {
        (entry.cell, Some(entry.number))
    }
}
