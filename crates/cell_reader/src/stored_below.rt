ghost use Rattle.std.specs.Prelude.{◌≡◌, IfOk};
ghost use Rattle.cube_space.specs.Cells.{IsCell};
ghost use Rattle.cell_reader.specs.StoredBelow.{stored_below};

use cell_store::{CellSet, Store};
use rule_model::Model;
use sparse_sum::Walk;
use std::alloc::{AllocError, Global};

// No cells: a walk over stored cells and these passes those that are stored.
#[derive(Drop)]
struct NoCells;

impl CellSet for NoCells {
    ghost use Rattle.std.specs.Prelude.{[]};

    ghost cells = { λ none. [] };

    fn next_from(&self, cell: u64) -> Option<u64> {
        None
    }
}

/// The stored leaf cells that count in a cell, rising.
pub(crate) fn stored_below(
    alloc: Global,
    model: &Model,
    store: &Store,
    cell: u64,
) -> Result<Vec<u64>, AllocError>
    requires { IsCell model.now.space cell }
    ensures { IfOk result (λ cells. cells.items ≡ stored_below model.now.space store.now cell) }
{
    let space = model.space();
    let mut cells = Vec::new(alloc);
    let mut walk = Walk::at(cell);
    'leaves: while let Some(leaf) = walk.next(space, model.weights(), store, &NoCells) {
        cells.push(leaf)?;
    }
    Ok(cells)
}
