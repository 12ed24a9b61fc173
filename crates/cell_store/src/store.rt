ghost use Rattle.std.specs.Prelude.{◌≡◌, ℕ, ◌<◌, ◌≤◌, ◌⊎◌, [], Err, length, map, IfOk, IsOkUnless};
ghost use Rattle.cell_store.specs.Entries.{IsStore, number_at, entry_from, after_writes};
ghost use Rattle.cell_store.specs.StoreLimit.{most_cells};
ghost use Rattle.cell_store.specs.Inside.Entries.{cell_of, entry_of};
ghost use Rattle.cell_store.specs.Inside.Trees.{all_entries, IsTree};

use crate::cells::CellSet;
use crate::entry::Entry;
use crate::fault::StoreFault;
use crate::part::Part;
use crate::tree::{Tree, changed};
use crate::writes::last_entries;
use cube_fixed::Money;
use std::alloc::{AllocError, Global};
use std::marker::Model;

/// The most cells of a store.
pub const MAX_CELLS: usize = 1_000_000;

/// The stored cells with their numbers. A cell that isn't stored has the number 0.
#[derive(Drop)]
pub struct Store {
    tree: Tree<Entry>,
    len: usize,
}

impl Model for Store {
    ghost use Rattle.std.specs.Prelude.{List};
    ghost use Rattle.cell_store.specs.declared.entry.Entry.{Entry};

    ghost Value = { List Entry };

    ghost use Rattle.cell_store.specs.Inside.Trees.{all_entries};
    ghost use Rattle.cell_store.specs.Inside.Stores.{IsKept};

    ghost view = { λ s. all_entries s.tree };

    ghost invariant = { λ s. IsKept s.tree s.len };
}

impl Store {
    /// The store without cells.
    pub fn new(alloc: Global) -> Store
        ensures { result ≡ [] }
    {
        Store {
            tree: Tree::new(alloc),
            len: 0,
        }
    }

    /// How many cells are stored.
    pub fn len(&self) -> u64
        ensures len { result ≡ length self.now }
        ensures within { result ≤ most_cells }
        ensures valid { IsStore self.now }
    {
        self.len as u64
    }

    /// The number of a cell: 0 where it isn't stored.
    pub fn get(&self, cell: u64) -> Money
        ensures { result ≡ number_at self.now cell }
    {
        match self.entry_from(cell) {
            Some(entry) => entry.number_for(cell),
            None => Money::ZERO,
        }
    }

    /// The entry of the least stored cell at or above this one.
    pub fn entry_from(&self, cell: u64) -> Option<Entry>
        ensures next { result ≡ entry_from self.now cell }
        ensures valid { IsStore self.now }
    {
        self.tree.first_from(cell)
    }

    /// The store after these writes, in their order: a later write of a cell wins, and a written 0 takes the cell out.
    pub fn apply(&self, alloc: Global, writes: &[(u64, Money)]) -> Result<Store, StoreFault>
        ensures written { IfOk result (λ store. store ≡ after_writes self.now writes.now) }
        ensures within { length (after_writes self.now writes.now) ≤ most_cells → IsOkUnless result StoreFault.Memory }

        // past the limit the count is the answer, and no other fault but out of memory
        ensures past { most_cells < length (after_writes self.now writes.now) →
            (result ≡ Err (StoreFault.StoreLimit (length (after_writes self.now writes.now))))
            ⊎ (result ≡ Err StoreFault.Memory) }
    {
        let tree = self.changed(alloc, writes)?;
        let len = tree.count()?;
        if len > MAX_CELLS {
            return Err(StoreFault::StoreLimit(len as u64));
        }
        Ok(Store { tree, len })
    }

    // The entries after these writes, in a tree.
    fn changed(&self, alloc: Global, writes: &[(u64, Money)]) -> Result<Tree<Entry>, AllocError>
        ensures entries { IfOk result (λ tree. all_entries tree ≡ after_writes self.now writes.now) }
        ensures stored { IfOk result (λ tree. IsStore (all_entries tree)) }
        ensures sized { IfOk result (λ tree. IsTree cell_of tree) }
    {
        let entries = entries_of_writes(alloc, writes)?;
        let last = last_entries(alloc, entries)?;
        let tree = changed(alloc, &self.tree, &last)?;
        Ok(tree)
    }
}

// The writes as entries. One that takes its cell out has the number 0.
fn entries_of_writes(alloc: Global, writes: &[(u64, Money)]) -> Result<Vec<Entry>, AllocError>
    ensures { IfOk result (λ entries. entries.items ≡ map entry_of writes.now) }
{
    writes
        .iter()
        .map(|write| Entry {
            cell: write.0,
            number: write.1,
        })
        .collect(alloc)
}

impl CellSet for Store {
    ghost use Rattle.cell_store.specs.Entries.{cells_of};

    ghost cells = { cells_of };

    fn next_from(&self, cell: u64) -> Option<u64> {
        match self.entry_from(cell) {
            Some(entry) => Some(entry.cell),
            None => None,
        }
    }
}
