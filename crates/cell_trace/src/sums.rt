ghost use Rattle.std.specs.Prelude.{◌≡◌, ℕ, ℤ, List, Some, false, not, filter, IfOk, IsSome};
ghost use Rattle.cell_reader.specs.Snapshots.{version_of};
ghost use Rattle.cell_trace.specs.Trace.{part_lines};
ghost use Rattle.cell_values.specs.Reading.{value_on};
ghost use Rattle.cube_fixed.specs.Arithmetic.{is_zero};
ghost use Rattle.cube_space.specs.Cells.{IsCell, is_leaf_cell};
ghost use Rattle.rule_laws.specs.RuleSystem.{weighted_sum};
ghost use Rattle.rule_model.specs.Targets.{component_cells};
ghost use Rattle.rule_model.specs.Weights.{leaves_below};

use crate::line::Line;
use crate::parts::Parts;
use cell_reader::Snapshot;
use cube_fixed::{Sum, Value};
use rule_dense::{parts_at, with_element_at};
use sparse_sum::{Walk, live_cells_are_few};
use std::alloc::{AllocError, Global};

/// What is added up for a cell, and the lines of its parts.
#[derive(Drop)]
pub(crate) struct Summed {
    pub value: Value,
    pub lines: Vec<Line>,
}

/// The sum of the leaf cells below a consolidated cell. Those that aren't 0 are parts.
pub(crate) fn sum_of_leaves(
    alloc: Global,
    version: &Snapshot,
    reader: &mut Snapshot,
    cell: u64,
) -> Result<Summed, AllocError>
    requires cell { IsCell (version_of version.now).model.space cell }
    requires consolidated { is_leaf_cell (version_of version.now).model.space cell ≡ false }
    requires same { version_of reader.old ≡ version_of version.now }
    ensures value { IfOk result (λ sum. sum.value ≡ weighted_sum (value_on (version_of version.now))
        (leaves_below (version_of version.now).model.space cell)) }
    ensures lines { let values = value_on (version_of version.now) in IfOk result (λ sum. sum.lines.items
        ≡ part_lines values (filter (λ pair. not (is_zero (values pair.0)))
        (leaves_below (version_of version.now).model.space cell))) }
    ensures version { version_of reader.new ≡ version_of reader.old }
{
    let model = version.model();
    let (space, weights) = (model.space(), model.weights());
    let (store, fed) = (version.store(), version.fed());
    // there are so few of them that their terms can be counted
    let _few = (store.len(), fed.count());
    live_cells_are_few();
    let mut walk = Walk::at(cell);
    let mut parts = Parts::new(alloc);
    'leaves: while let Some(leaf) = walk.step(space, weights, store, fed) {
        let value = reader.value_at(alloc, leaf.cell)?;
        parts.push_other(leaf.cell, leaf.weight, &value)?;
        walk.add(leaf.weight, value);
    }
    parts.summed(walk.value())
}

/// The sum over the components of the cell's element, in the dimension at this place of its cube. All are parts.
pub(crate) fn sum_of_components(
    alloc: Global,
    version: &Snapshot,
    reader: &mut Snapshot,
    cell: u64,
    dim: u32,
) -> Result<Summed, AllocError>
    requires cell { IsCell (version_of version.now).model.space cell }
    requires some { IsSome (component_cells (version_of version.now).model.space cell dim) }
    requires same { version_of reader.old ≡ version_of version.now }
    ensures value { IfOk result (λ sum. (cells : List (ℕ × ℤ))
        → component_cells (version_of version.now).model.space cell dim ≡ Some cells
        → sum.value ≡ weighted_sum (value_on (version_of version.now)) cells) }
    ensures lines { IfOk result (λ sum. (cells : List (ℕ × ℤ))
        → component_cells (version_of version.now).model.space cell dim ≡ Some cells
        → sum.lines.items ≡ part_lines (value_on (version_of version.now)) cells) }
    ensures version { version_of reader.new ≡ version_of reader.old }
{
    let space = version.model().space();
    let components = parts_at(space, cell, dim as usize);
    let mut sum = Sum::new();
    let mut parts = Parts::new(alloc);
    for (part, weight) in components {
        let Some(component) = with_element_at(space, cell, dim as usize, *part) else {
            continue;
        };
        let value = reader.value_at(alloc, component)?;
        parts.push(component, *weight, &value)?;
        sum.add(*weight, value);
    }
    parts.summed(sum.value())
}
