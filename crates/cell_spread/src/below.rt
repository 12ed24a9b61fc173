ghost use Rattle.std.specs.Prelude.{◌≡◌, ◌++◌, ◌∷◌, [], List, ℕ, ◌⊎◌, true, false, All, IfOk, IfErr, OnOk};
ghost use Rattle.cell_store.specs.declared.entry.Entry.{Entry};
ghost use Rattle.cube_fixed.specs.Range.{IsInRange};
ghost use Rattle.cube_space.specs.Cells.{IsCell};
ghost use Rattle.stored_laws.specs.Stored.{stored_in};
ghost use Rattle.dim_weights.specs.Table.{nonzero_among};
ghost use Rattle.cell_spread.specs.Spread.{part_of, parts_of, is_weighted};
ghost use Rattle.cell_spread.specs.declared.fault.SpreadFault.TheVariants.{Memory, Weighted};

use crate::fault::SpreadFault;
use crate::writes::How;
use cell_store::{CellSet, Store};
use cube_fixed::Money;
use rule_model::Model;
use sparse_sum::{Leaf, Walk};
use std::alloc::{AllocError, Global};

// All cells: a walk over stored cells and these passes every leaf cell below a cell.
#[derive(Drop)]
struct EachCell {
    size: u64,
}

impl CellSet for EachCell {
    ghost use Rattle.std.specs.List.{range_with_len};

    ghost cells = { λ each. range_with_len 0 each.size };

    fn next_from(&self, cell: u64) -> Option<u64> {
        if cell < self.size { Some(cell) } else { None }
    }
}

/// The leaf cells below a cell that get a share, each with its part. Weighted where a leaf cell below doesn't count
/// just once.
pub fn parts_of(
    alloc: Global,
    model: &Model,
    store: &Store,
    cell: u64,
    how: How,
) -> Result<Vec<(u64, i64)>, SpreadFault>
    requires { IsCell model.now.space cell }
    ensures parts { IfOk result (λ parts. parts.items ≡ parts_of model.now.space store.now how cell) }
    ensures plain { IfOk result (λ _. is_weighted model.now.space cell ≡ false) }
    ensures weighted { IfErr result (λ fault. (fault ≡ Memory)
        ⊎ ((fault ≡ Weighted) × (is_weighted model.now.space cell ≡ true))) }
    ensures small { IfOk result (λ parts. All (λ one. IsInRange one.1) parts.items) }
{
    let space = model.space();
    let each = EachCell { size: space.size() };
    let mut parts = Vec::new(alloc);
    let mut walk = Walk::at(cell);
    'leaves: while let Some(leaf) = walk.step(space, model.weights(), store, &each) {
        if leaf.weight != 1 {
            return Err(SpreadFault::Weighted);
        }
        add_part(&mut parts, how, leaf)?;
    }
    Ok(parts)
}

// Adds the part of a leaf cell, where it isn't 0.
fn add_part(parts: &mut Vec<(u64, i64)>, how: How, leaf: Leaf) -> Result<(), AllocError>
    ensures added { OnOk result ((entries : List Entry) → leaf.stored ≡ stored_in entries leaf.cell
        → parts.new.items ≡ parts.old.items ++ nonzero_among (part_of how entries) (leaf.cell ∷ [])) }
    ensures small { OnOk result (All (λ one. IsInRange one.1) parts.old.items
        → All (λ one. IsInRange one.1) parts.new.items) }
{
    let part = part_of(how, leaf.stored);
    if part != 0 {
        parts.push((leaf.cell, part))?;
    }
    Ok(())
}

// In proportion to what a cell gets its share, of which this is stored.
fn part_of(how: How, stored: Option<Money>) -> i64
    ensures part { (entries : List Entry) (cell : ℕ) → stored ≡ stored_in entries cell
        → result ≡ part_of how entries cell }
    ensures small { IsInRange result }
{
    match how {
        How::Equal => 1,
        How::Proportional => match stored {
            Some(number) => number.millionths(),
            None => 0,
        },
    }
}
