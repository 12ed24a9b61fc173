ghost use Rattle.std.specs.Prelude.{◌≡◌, true, false, [], length, IfOk};
ghost use Rattle.cell_store.specs.Cells.{IsUnion, IsDifference};
ghost use Rattle.cell_store.specs.Inside.Sets.{members_of};

use crate::cells::CellSet;
use crate::member::Member;
use crate::part::Part;
use crate::tree::{Tree, changed};
use crate::writes::last_entries;
use std::alloc::{AllocError, Global};
use std::marker::Model;

/// A set of cells, in pages that it shares with the sets that were made from it.
#[derive(Drop)]
pub struct PageSet {
    tree: Tree<Member>,
    len: usize,
}

impl Model for PageSet {
    ghost use Rattle.std.specs.Prelude.{List, ℕ};
    ghost use Rattle.cell_store.specs.Inside.Sets.{IsKept, tree_cells};

    ghost Value = { List ℕ };

    ghost view = { λ s. tree_cells s.tree };

    ghost invariant = { λ s. IsKept s.tree s.len };
}

impl PageSet {
    /// The set without cells.
    pub fn new(alloc: Global) -> PageSet
        ensures { result ≡ [] }
    {
        PageSet {
            tree: Tree::new(alloc),
            len: 0,
        }
    }

    /// How many cells the set has.
    pub fn len(&self) -> u64
        ensures { result ≡ length self.now }
    {
        self.len as u64
    }

    /// The set with these cells too, in whatever order they come.
    pub fn with(&self, alloc: Global, cells: &[u64]) -> Result<PageSet, AllocError>
        ensures { IfOk result (λ union. IsUnion self.now cells.now union) }
    {
        self.changed(alloc, cells, false)
    }

    /// The set without these cells, in whatever order they come.
    pub fn without(&self, alloc: Global, cells: &[u64]) -> Result<PageSet, AllocError>
        ensures { IfOk result (λ left. IsDifference self.now cells.now left) }
    {
        self.changed(alloc, cells, true)
    }

    // The set with these cells, or without them.
    fn changed(&self, alloc: Global, cells: &[u64], gone: bool) -> Result<PageSet, AllocError>
        ensures put_in { gone ≡ false → IfOk result (λ union. IsUnion self.now cells.now union) }
        ensures taken_out { gone ≡ true → IfOk result (λ left. IsDifference self.now cells.now left) }
    {
        let members = members_of(alloc, cells, gone)?;
        let last = last_entries(alloc, members)?;
        let tree = changed(alloc, &self.tree, &last)?;
        let len = tree.count()?;
        Ok(PageSet { tree, len })
    }
}

// These cells, each put in or each taken out.
fn members_of(alloc: Global, cells: &[u64], gone: bool) -> Result<Vec<Member>, AllocError>
    ensures { IfOk result (λ members. members.items ≡ members_of gone cells.now) }
{
    cells
        .iter()
        .map(|cell| Member { cell: *cell, gone })
        .collect(alloc)
}

impl CellSet for PageSet {
    ghost cells = { λ set. set };

    fn next_from(&self, cell: u64) -> Option<u64> {
        match self.tree.first_from(cell) {
            Some(member) => Some(member.cell),
            None => None,
        }
    }
}
