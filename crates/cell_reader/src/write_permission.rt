ghost use Rattle.std.specs.Prelude.{◌≡◌, true, IfNone};
ghost use Rattle.cube_space.specs.Cells.{IsCell, is_leaf_cell};
ghost use Rattle.cell_reader.specs.WritePermission.{why_closed};

use rule_model::{Model, is_input};

/// Why no number may be written into a cell, whatever is stored.
#[derive(Clone, Copy, Debug, PartialEq, Eq)]
pub enum Closed {
    /// The cell is consolidated, so nothing is stored in it.
    NotALeaf,
    /// The cell has its value by a rule without STET.
    RuleDerived,
}

/// Why no number may be written into a cell; None where one may.
pub fn why_closed(model: &Model, cell: u64) -> Option<Closed>
    requires { IsCell model.now.space cell }
    ensures closed { result ≡ why_closed model.now cell }
    ensures leaf { IfNone result (is_leaf_cell model.now.space cell ≡ true) }
{
    if !model.space().is_leaf(cell) {
        Some(Closed::NotALeaf)
    } else if !is_input(model, cell) {
        Some(Closed::RuleDerived)
    } else {
        None
    }
}
