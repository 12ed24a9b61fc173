ghost use Rattle.std.specs.Prelude.{◌≡◌, ◌≢◌, ◌<◌, ◌≤◌, ◌-◌, ◌⊎◌, ◌↔◌, true, IsTrue, IsFalse, None, []};
ghost use Rattle.std.specs.Prelude.{IfOk, IfErr, OnOk, All, Contains, length, slice_get, slice_index};
ghost use Rattle.std.specs.List.Sorted.{IsNonDecreasing, IsStrictlyIncreasing};
ghost use Rattle.feed_map.specs.Inside.Gains.{Gains, AreFresh, NoCell, StopsBy};

use crate::fault::FedFault;
use cell_store::{CellSet, PageSet};
use std::alloc::{AllocError, Global};

/// The most fed cells of a version.
pub const MAX_FED: usize = 4_000_000;

// How many found cells are put to those known at once.
const BATCH: usize = 65_536;

/// The cells that are known to be fed, while feeders are followed.
#[derive(Drop)]
pub struct Growth {
    alloc: Global,
    /// Those that are known.
    pub known: PageSet,
    /// Those that came since, in the order in which they are followed.
    pub opened: Vec<u64>,
    /// Cells that were found, and wait to be put to those known. Some may be known already.
    pub found: Vec<u64>,
    /// How often a cell was found.
    pub finds: u64,
}

impl Growth {
    /// These cells are known.
    pub fn from(alloc: Global, known: PageSet) -> Growth
        ensures known { result.known ≡ known }
        ensures opened { result.opened.items ≡ [] }
        ensures found { result.found.items ≡ [] }
    {
        Growth {
            alloc,
            known,
            opened: Vec::new(alloc),
            found: Vec::new(alloc),
            finds: 0,
        }
    }

    /// A cell was found to be fed.
    pub fn add(&mut self, cell: u64) -> Result<(), FedFault>
        ensures gains { OnOk result (Gains (λ other. cell ≡ other) self.old self.new) }
        ensures stops { IfErr result (StopsBy (λ other. cell ≡ other) self.old self.new) }
    {
        self.finds = self.finds.saturating_add(1);
        self.found.push(cell)?;
        if self.found.len() < BATCH {
            return Ok(());
        }
        self.settle()
    }

    /// The cell at a place of those to be followed. Past their end, what was found is put to what is known; None where
    /// none has come then.
    pub fn open_at(&mut self, place: usize) -> Result<Option<u64>, FedFault>
        requires { place ≤ length self.old.opened.items }
        ensures gains { OnOk result (Gains NoCell self.old self.new) }
        ensures stops { IfErr result (StopsBy NoCell self.old self.new) }
        ensures open { IfOk result (λ cell. cell ≡ slice_get self.new.opened.items place) }
        ensures none { IfOk result (λ cell. cell ≡ None → self.new.found.items ≡ []) }
    {
        if place < self.opened.len() {
            return Ok(cell_at(&self.opened, place));
        }
        self.settle()?;
        Ok(cell_at(&self.opened, place))
    }

    /// Puts what was found to what is known.
    pub fn settle(&mut self) -> Result<(), FedFault>
        ensures gains { OnOk result (Gains NoCell self.old self.new) }
        ensures stops { IfErr result (StopsBy NoCell self.old self.new) }
        ensures none { OnOk result (self.new.found.items ≡ []) }
    {
        if self.found.is_empty() {
            return Ok(());
        }
        // a set says of itself that it rises
        let _first = self.known.next_from(0);
        let fresh = fresh_cells(self.alloc, &mut self.found, &self.known)?;
        self.found.clear();
        self.known = self.known.with(self.alloc, &fresh)?;
        self.opened.extend_from_slice(&fresh)?;
        if self.known.len() > MAX_FED as u64 {
            return Err(FedFault::FedLimit(MAX_FED as u64 + 1));
        }
        Ok(())
    }
}

// Those of the found cells that aren't known, rising.
fn fresh_cells(alloc: Global, found: &mut Vec<u64>, known: &PageSet) -> Result<Vec<u64>, AllocError>
    ensures { IfOk result (λ fresh. AreFresh known.now found.old.items fresh.items) }
{
    if are_fresh(known, found) {
        let fresh = Vec::from_slice(alloc, found)?;
        return Ok(fresh);
    }
    found.sort()?;
    let fresh = unknown_cells(alloc, found, known)?;
    Ok(fresh)
}

// Whether the cells rise, and all are greater than those that are known, as the leaf cells of a cube are found.
fn are_fresh(known: &PageSet, found: &[u64]) -> bool
    ensures { result ≡ true → AreFresh known.now found.now found.now }
{
    if !is_rising(found) {
        return false;
    }
    are_beyond(known, found)
}

// Whether each cell is greater than the one before it.
fn is_rising(cells: &[u64]) -> bool
    ensures { result ≡ true → IsStrictlyIncreasing cells.now }
{
    'each: for place in 1..cells.len() {
        if cells[place] <= cells[place - 1] {
            return false;
        }
    }
    true
}

// Those of these cells that aren't known, each once.
fn unknown_cells(alloc: Global, found: &[u64], known: &PageSet) -> Result<Vec<u64>, AllocError>
    requires { IsNonDecreasing found.now }
    ensures { IfOk result (λ fresh. AreFresh known.now found.now fresh.items) }
{
    let beyond = are_beyond(known, found);
    let mut fresh = Vec::new(alloc);
    'each: for place in 0..found.len() {
        if is_new(found, place) && !is_known(known, beyond, found[place]) {
            fresh.push(found[place])?;
        }
    }
    Ok(fresh)
}

// Whether all of these cells, which come in their order, are greater than all that are known.
fn are_beyond(known: &PageSet, found: &[u64]) -> bool
    requires { IsNonDecreasing found.now }
    ensures { result ≡ true → All (λ cell. Contains known.now cell → ⊥) found.now }
{
    match found.first() {
        Some(least) => known.next_from(*least).is_none(),
        None => true,
    }
}

// Whether a cell is known. It isn't looked for where it is greater than all that are.
fn is_known(known: &PageSet, beyond: bool, cell: u64) -> bool
    requires { beyond ≡ true → Contains known.now cell → ⊥ }
    ensures { IsTrue result ↔ Contains known.now cell }
{
    !beyond && known.has(cell)
}

// Whether a number differs from the one before it.
fn is_new(found: &[u64], place: usize) -> bool
    requires { place < length found.now }
    ensures new { IsTrue result → place ≡ 0 ⊎ (slice_index found.now (place - 1) ≢ slice_index found.now place) }
    ensures again { IsFalse result → (0 < place) × (slice_index found.now (place - 1) ≡ slice_index found.now place) }
{
    place == 0 || found[place - 1] != found[place]
}

// The cell at a place, if there is one.
fn cell_at(cells: &[u64], place: usize) -> Option<u64>
    ensures { result ≡ slice_get cells.now place }
{
    cells.get(place).copied()
}
