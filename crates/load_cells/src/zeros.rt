ghost use Rattle.std.specs.Prelude.{◌≡◌, ℕ, true, List, ◌∷◌, Ok, All, OnOk};
ghost use Rattle.cell_reader.specs.Works.{opening_of, writes_of};
ghost use Rattle.cube_space.specs.Cells.{IsCell, is_leaf_cell};
ghost use Rattle.script_values.specs.Cells.{with_zeros};
ghost use Rattle.load_cells.specs.Loads.{open_among, store_of};

use cell_reader::{Work, why_closed};
use std::alloc::{AllocError, Global};

/// Writes a 0 into each of these leaf cells that takes input.
pub(crate) fn zero_out(alloc: Global, work: &mut Work, cells: &[u64]) -> Result<(), AllocError>
    requires { let space = (opening_of work.old).model.space in
        All (λ cell. IsCell space cell × (is_leaf_cell space cell ≡ true)) cells.now }
    ensures opening { opening_of work.new ≡ opening_of work.old }
    ensures written { let opening = opening_of work.old in
        OnOk result (with_zeros (store_of opening.model opening.stored) (writes_of work.old)
        (open_among opening.model cells.now) ≡ Ok (writes_of work.new)) }
{
    'each: for cell in cells {
        zero_one(alloc, work, *cell)?;
    }
    Ok(())
}

// Writes a 0 into a leaf cell, if it takes input.
fn zero_one(alloc: Global, work: &mut Work, cell: u64) -> Result<(), AllocError>
    requires cell { IsCell (opening_of work.old).model.space cell }
    requires leaf { is_leaf_cell (opening_of work.old).model.space cell ≡ true }
    ensures opening { opening_of work.new ≡ opening_of work.old }
    ensures written { let opening = opening_of work.old in OnOk result ((cells : List ℕ)
        → with_zeros (store_of opening.model opening.stored) (writes_of work.old)
        (open_among opening.model (cell ∷ cells))
        ≡ with_zeros (store_of opening.model opening.stored) (writes_of work.new) (open_among opening.model cells)) }
{
    match why_closed(work.model(), cell) {
        None => work.clear(alloc, cell),
        Some(_) => Ok(()),
    }
}
