ghost use Rattle.std.specs.Prelude.{◌≡◌, ◌<◌, [], false, true, length, Some};
ghost use Rattle.cell_values.specs.Reading.{IsUngoverned};
ghost use Rattle.cell_values.specs.Inside.Frames.{IsWork, work_left};
ghost use Rattle.cell_values.specs.Inside.Questions.{is_grounded, work_on};
ghost use Rattle.cube_space.specs.Cells.{IsCell, is_leaf_cell};
ghost use Rattle.rule_evaluate.specs.declared.ask.Ask.TheVariants.{Value as of_value, Base as of_base};
ghost use Rattle.rule_evaluate.specs.declared.ask.Ask.TheVariants.{Children as of_children};
ghost use Rattle.rule_model.specs.Governing.{governing_from};
ghost use Rattle.rule_model.specs.Targets.{parts_at};

use crate::frames::{ComponentSum, Evaluation, Frame, LeafSum};
use crate::sound::is_sound;
use cell_versions::Version;
use cube_fixed::Value;
use rule_evaluate::Ask;
use std::alloc::Global;

/// The evaluation of a cell that this statement governs, of which no question is answered yet.
pub(crate) fn evaluation(
    alloc: Global,
    version: &Version,
    cell: u64,
    statement: u32,
    known: Vec<(Ask, Value)>,
) -> Frame
    requires cell { IsCell version.now.model.space cell }
    requires governs { governing_from version.now.model cell 0 ≡ Some statement }
    requires known { known.items ≡ [] }
    ensures work { IsWork version.now result (of_value cell) }
    ensures left { work_left version.now result < work_on version.now (of_value cell) }
{
    Frame::Evaluation(Evaluation {
        cell,
        statement,
        known,
        asked: None,
        pending: Vec::new(alloc),
    })
}

/// The sum over the leaf cells below a consolidated cell that no statement governs.
pub(crate) fn total(version: &Version, cell: u64) -> Frame
    requires cell { IsCell version.now.model.space cell }
    requires consolidated { is_leaf_cell version.now.model.space cell ≡ false }
    requires ungoverned { IsUngoverned version.now cell }
    ensures work { IsWork version.now result (of_value cell) }
    ensures left { work_left version.now result < work_on version.now (of_value cell) }
{
    is_sound(version);
    Frame::Leaves(LeafSum::new(version, cell))
}

/// The sum over the leaf cells below a consolidated cell.
pub(crate) fn base_sum(version: &Version, cell: u64) -> Frame
    requires cell { IsCell version.now.model.space cell }
    requires consolidated { is_leaf_cell version.now.model.space cell ≡ false }
    ensures work { IsWork version.now result (of_base cell) }
    ensures left { work_left version.now result < work_on version.now (of_base cell) }
{
    is_sound(version);
    Frame::Leaves(LeafSum::new(version, cell))
}

/// The sum over the components of a cell's element in a dimension, which lie less deep.
pub(crate) fn component_sum(version: &Version, cell: u64, dim: u32) -> Frame
    requires cell { IsCell version.now.model.space cell }
    requires some { 0 < length (parts_at version.now.model.space cell dim) }
    requires grounded { is_grounded version.now cell dim ≡ true }
    ensures work { IsWork version.now result (of_children cell dim) }
    ensures left { work_left version.now result < work_on version.now (of_children cell dim) }
{
    Frame::Components(ComponentSum::new(version, cell, dim))
}
