ghost use Rattle.cell_values.specs.Inside.Sound.{IsSound};

use cell_versions::Version;

/// What a version says of itself by its parts. It does nothing when it runs.
pub(crate) fn is_sound(version: &Version)
    ensures { IsSound version.now }
{
    let _space = version.model().space();
    let _stored = version.store().len();
    let _fed = version.fed().count();
}
