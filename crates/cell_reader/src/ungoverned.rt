ghost use Rattle.std.specs.Prelude.{◌≡◌, List, not, ◌&&◌, is_some, IsTrue};
ghost use Rattle.cell_store.specs.Entries.{number_at};
ghost use Rattle.cell_store.specs.declared.entry.Entry.{Entry};
ghost use Rattle.cube_fixed.specs.declared.value.Value.TheVariants.{Num};
ghost use Rattle.cube_space.specs.Cells.{IsCell, is_leaf_cell};
ghost use Rattle.rule_laws.specs.RuleSystem.{dense_value};
ghost use Rattle.rule_model.specs.Governing.{governing_from};
ghost use Rattle.rule_model.specs.System.{system_of};
ghost use Rattle.stored_laws.specs.Stored.{stored_in};

use crate::sound::is_sound;
use cell_versions::Version;
use rule_model::governing;

/// Whether a cell is a leaf cell that no statement governs: then its value is the number that is stored in it, whatever
/// is stored.
pub(crate) fn is_ungoverned_leaf(version: &Version, cell: u64) -> bool
    requires { IsCell version.now.model.space cell }
    ensures which { result ≡ (is_leaf_cell version.now.model.space cell
        && not (is_some (governing_from version.now.model cell 0))) }
    ensures value { IsTrue result → (stored : List Entry)
        → dense_value (system_of version.now.model) (stored_in stored) cell ≡ Num (number_at stored cell) }
{
    is_sound(version);
    let model = version.model();
    model.space().is_leaf(cell) && governing(model, cell).is_none()
}
