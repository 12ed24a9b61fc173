ghost use Rattle.std.specs.Prelude.{◌≡◌, ℕ, true, List, IfOk};
ghost use Rattle.std.specs.List.Sorted.{IsNonDecreasingBy};
ghost use Rattle.cell_store.specs.Inside.Order.{IsRising, HaveSameLast};

use crate::order::Stored;
use crate::places::count_below;
use std::alloc::{AllocError, Global};

/// The last write of each cell, in the order of the cells. Writes that come in that order, each of its own cell, are
/// the last ones.
pub fn last_entries<E: Stored>(alloc: Global, writes: Vec<E>) -> Result<Vec<E>, AllocError>
    ensures rising { IfOk result (λ last. IsRising E.cell last.items) }
    ensures last { IfOk result (λ last. HaveSameLast E.cell last.items writes.items) }
{
    if is_rising(&writes) {
        return Ok(writes);
    }
    let mut sorted = writes;
    sorted.sort_by_key(|write| write.cell())?;
    let last = last_sorted(alloc, &sorted)?;
    Ok(last)
}

// The last write of each cell, of writes that come in the order of the cells.
fn last_sorted<E: Stored>(alloc: Global, writes: &[E]) -> Result<Vec<E>, AllocError>
    requires { IsNonDecreasingBy E.cell writes.now }
    ensures rising { IfOk result (λ last. IsRising E.cell last.items) }
    ensures last { IfOk result (λ last. HaveSameLast E.cell last.items writes.now) }
{
    let mut last = Vec::with_capacity(alloc, writes.len())?;
    for write in writes {
        let below = count_below(&last, write.cell());
        last.truncate(below);
        last.push(*write)?;
    }
    Ok(last)
}

// Whether the cell of each write is above the one before it.
fn is_rising<E: Stored>(writes: &[E]) -> bool
    ensures { result ≡ true → IsRising E.cell writes.now }
{
    for place in 1..writes.len() {
        if writes[place].cell() <= writes[place - 1].cell() {
            return false;
        }
    }
    true
}
