ghost use Rattle.cube_space.specs.Cells.{IsSpace};
ghost use Rattle.rule_model.specs.Conditions.{AreRules};
ghost use Rattle.cell_reader.specs.Limits.{IsWithinLimits};

use cell_versions::Version;

/// What a version says of itself by its parts: its model is in range, and no limit is passed in it. It does nothing
/// when it runs.
pub(crate) fn is_sound(version: &Version)
    ensures space { IsSpace version.now.model.space }
    ensures rules { AreRules version.now.model.space version.now.model.rules }
    ensures within { IsWithinLimits version.now.model version.now.stored }
{
    let _space = version.model().space();
    let _stored = version.store().len();
    let _fed = version.fed().count();
}
