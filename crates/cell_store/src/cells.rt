ghost use Rattle.std.specs.Prelude.{◌≡◌, ℕ, ◌↔◌, List, IsTrue, Contains};
ghost use Rattle.std.specs.List.Sorted.{IsStrictlyIncreasing};
ghost use Rattle.cell_store.specs.Cells.{next_from};

/// A set of cells, which is walked from the least cell upwards.
pub trait CellSet {
    ghost cells: { Self → List ℕ };

    /// The least cell of the set at or above this one.
    fn next_from(&self, cell: u64) -> Option<u64>
        ensures next { result ≡ next_from (cells self.now) cell }
        ensures rising { IsStrictlyIncreasing (cells self.now) };

    /// Whether the cell is in the set.
    fn has(&self, cell: u64) -> bool
        ensures { IsTrue result ↔ Contains (cells self.now) cell }
    {
        match self.next_from(cell) {
            Some(next) => next == cell,
            None => false,
        }
    }
}
