//! Writes of cells: what is left of them when a later one of a cell takes the place of the earlier ones.
#![tactic(auto)]

ghost use Rattle.std.specs.Prelude.{◌≡◌, IfOk};
ghost use Rattle.cell_writes.specs.Writes.{last_writes};

use cube_fixed::Money;
use std::alloc::{AllocError, Global};

/// For each cell that is written its last write, by the numbers of the cells. A written 0 is a write.
pub fn last_writes(alloc: Global, writes: &[(u64, Money)]) -> Result<Vec<(u64, Money)>, AllocError>
    ensures { IfOk result (λ last. last.items ≡ last_writes writes.now) }
{
    let mut last = Vec::from_slice(alloc, writes)?;
    // A stable sort: the writes of a cell stand side by side then, still in their order.
    last.sort_by_key(|write| write.0)?;
    // Each then goes over the one before it.
    last.dedup_by(|later, earlier| {
        let is_again = later.0 == earlier.0;
        if is_again {
            earlier.1 = later.1;
        }
        is_again
    });
    Ok(last)
}
