ghost use Rattle.std.specs.Prelude.{◌≡◌, ◌+◌, ◌≤◌, ◌^◌, length, IfOk, IfErr};
ghost use Rattle.cell_store.specs.Entries.{cells_of};
ghost use Rattle.cube_space.specs.Cells.{IsCell, cube_of};
ghost use Rattle.rule_model.specs.Weights.{AreWeightsOf, weight_product, most_weight_product};
ghost use Rattle.sparse_sum.specs.Live.{live_below};
ghost use Rattle.sparse_sum.specs.Totals.{IsTotal, IsStopped};

use crate::laws::live_cells_are_few;
use crate::leaves::Leaves;
use crate::walk::Walk;
use cell_store::{CellSet, Store};
use cube_fixed::Value;
use cube_space::Space;
use dim_weights::Weights;

/// The exact weighted sum of the values of the stored or fed leaf cells below a cell, each asked for once, from the
/// least upwards. A fault of the first that has one is handed on.
pub fn sum_under<W: CellSet, L: Leaves>(
    space: &Space,
    weights: &[Weights],
    stored: &Store,
    fed: &W,
    cell: u64,
    leaves: &mut L,
) -> Result<Value, L::Fault>
    requires weights { AreWeightsOf space.now.dimensions weights.now }
    requires cell { IsCell space.now cell }
    requires product { weight_product space.now (cube_of space.now cell) ≤ most_weight_product }
    requires few { length stored.now + length (W.cells fed.now) ≤ 2 ^ 32 }
    ensures total { IfOk result (λ value. IsTotal L.after_call
        (live_below space.now (cells_of stored.now) (W.cells fed.now) cell)
        (L.calls leaves.old) (L.calls leaves.new) value) }
    ensures counted { IfOk result (λ value. L.count (L.calls leaves.new) ≡ L.count (L.calls leaves.old)
        + length (live_below space.now (cells_of stored.now) (W.cells fed.now) cell)) }
    ensures stopped { IfErr result (λ fault. IsStopped L.after_call
        (live_below space.now (cells_of stored.now) (W.cells fed.now) cell)
        (L.calls leaves.old) (L.calls leaves.new) fault) }
{
    live_cells_are_few();
    let mut walk = Walk::at(cell);
    'leaves: while let Some(leaf) = walk.step(space, weights, stored, fed) {
        match leaves.leaf(leaf.cell) {
            Ok(value) => walk.add(leaf.weight, value),
            Err(fault) => return Err(fault),
        }
    }
    Ok(walk.value())
}
