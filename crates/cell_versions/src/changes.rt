ghost use Rattle.std.specs.Prelude.{◌≡◌, ℕ, ◌⊎◌, true, false, IfOk, OnOk, map, option_map, Contains};
ghost use Rattle.cell_versions.specs.Inside.Changes.{IsAddedIf, IsChangeBy};

use cell_store::{CellSet, Store};
use cube_fixed::Money;
use feed_sources::{SourceModel, is_any_source};
use std::alloc::{AllocError, Global};

/// The cells of these writes that are stored now and weren't before; None where one that was stored isn't any more, and
/// is in the area of a feeder.
pub(crate) fn added_by(
    alloc: Global,
    model: &SourceModel,
    before: &Store,
    after: &Store,
    writes: &[(u64, Money)],
) -> Result<Option<Vec<u64>>, AllocError>
    ensures { IfOk result (λ added. IsAddedIf model.now before.now after.now (map (λ write. write.0) writes.now)
        (option_map (λ cells. cells.items) added)) }
{
    let mut added = Vec::new(alloc);
    for write in writes {
        let (was, is) = (before.has(write.0), after.has(write.0));
        if was && !is && is_any_source(model, write.0) {
            return Ok(None);
        }
        if is && !was {
            added.push(write.0)?;
        }
    }
    Ok(Some(added))
}

/// Which cells some writes have changed between stored and not stored.
#[derive(Drop)]
pub(crate) struct Change {
    /// Those that were stored before, and aren't any more.
    pub went: Vec<u64>,
    /// Those that are stored now, and weren't before.
    pub came: Vec<u64>,
}

/// The cells of these writes that went, and those that came.
pub(crate) fn change_by(
    alloc: Global,
    before: &Store,
    after: &Store,
    writes: &[(u64, Money)],
) -> Result<Change, AllocError>
    ensures { IfOk result (λ change. IsChangeBy before.now after.now (map (λ write. write.0) writes.now)
        change.went.items change.came.items) }
{
    let mut went = Vec::new(alloc);
    let mut came = Vec::new(alloc);
    for write in writes {
        let (was, is) = (before.has(write.0), after.has(write.0));
        note(&mut went, was, is, write.0)?;
        note(&mut came, is, was, write.0)?;
    }
    Ok(Change { went, came })
}

// Adds a cell that is in one store, and not in the other.
fn note(cells: &mut Vec<u64>, is_in: bool, is_other: bool, cell: u64) -> Result<(), AllocError>
    ensures kept { OnOk result ((other : ℕ) → Contains cells.old.items other → Contains cells.new.items other) }
    ensures there { OnOk result (is_in ≡ true → (is_other ≡ true) ⊎ Contains cells.new.items cell) }
    ensures only { OnOk result ((other : ℕ) → Contains cells.new.items other
        → Contains cells.old.items other ⊎ ((is_in ≡ true) × (cell ≡ other))) }
{
    if is_in && !is_other {
        cells.push(cell)?;
    }
    Ok(())
}
