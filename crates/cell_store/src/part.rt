ghost use Rattle.std.specs.Prelude.{◌≡◌, ℕ, ◌*◌, ◌<◌, ◌≤◌, true, false, List, [], ◌++◌, length};
ghost use Rattle.std.specs.Prelude.{IfOk, OnOk, IfSome, IfNone};
ghost use Rattle.cell_store.specs.Inside.Order.{EndsAt, IsRising, first_from, after_entries};

use crate::order::Stored;
use std::alloc::{AllocError, Global};

/// Entries in the order of their cells, of which the front can be cut off.
pub trait Part<E: Stored>: Drop {
    ghost entries: { Self → List E };

    ghost is_sized: { Self → Type 0 };

    // of how many it is made: a page of entries, a level of nodes
    ghost size: { Self → ℕ };

    // the fewest of which one is made that versions share, which has fewer than twice as many
    ghost half: { ℕ };

    fn new(alloc: Global) -> Self
        ensures entries { entries result ≡ [] }
        ensures sized { is_sized result }
        ensures short { size result < 2 * half };

    /// Whether it is large enough to be shared.
    fn is_large(&self) -> bool
        ensures large { result ≡ true → half ≤ size self.now };

    /// Whether it is too large to be shared.
    fn is_long(&self) -> bool
        ensures long { result ≡ true → 2 * half ≤ size self.now }
        ensures short { result ≡ false → size self.now < 2 * half };

    /// How many entries there are. More than a `usize` counts need more memory than there is.
    fn count(&self) -> Result<usize, AllocError>
        requires { is_sized self.now }
        ensures { IfOk result (λ count. count ≡ length (entries self.now)) };

    /// The cell of the last entry.
    fn last_cell(&self) -> Option<u64>
        requires { is_sized self.now }
        ensures some { IfSome result (λ last. EndsAt E.cell last (entries self.now)) }
        ensures none { IfNone result (entries self.now ≡ []) };

    /// The first entry at or above the cell.
    fn first_from(&self, cell: u64) -> Option<E>
        requires sized { is_sized self.now }
        requires rising { IsRising E.cell (entries self.now) }
        ensures { result ≡ first_from E.cell (entries self.now) cell };

    /// Adds the entries of a part with these writes, which come in the order of their cells. What has no write is
    /// shared.
    fn add_changed(&mut self, alloc: Global, part: &Self, writes: &[E]) -> Result<(), AllocError>
        requires sized { is_sized self.old }
        requires part { is_sized part.now }
        requires rising { IsRising E.cell (entries part.now) }
        requires writes { IsRising E.cell writes.now }
        ensures entries { OnOk result (entries self.new ≡
            entries self.old ++ after_entries E.cell E.is_gone (entries part.now) writes.now) }
        ensures sized { OnOk result (is_sized self.new) };

    /// Takes the front out, as large as what is shared has to be.
    fn cut(&mut self, alloc: Global) -> Result<Self, AllocError>
        requires sized { is_sized self.old }
        requires long { 2 * half ≤ size self.old }
        ensures entries { IfOk result (λ front. entries front ++ entries self.new ≡ entries self.old) }
        ensures front { IfOk result (λ front. is_sized front) }
        ensures least { IfOk result (λ front. half ≤ size front) }
        ensures most { IfOk result (λ front. size front < 2 * half) }
        ensures sized { OnOk result (is_sized self.new) }
        ensures less { OnOk result (size self.new < size self.old) };
}
