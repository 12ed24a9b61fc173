ghost use Rattle.std.specs.Prelude.{◌≡◌};
ghost use Rattle.cell_values.specs.Reading.{AreValuesOn};
ghost use Rattle.cell_versions.specs.Versions.{NumberedVersion};
ghost use Rattle.memo_cells.specs.Values.{cell_value};
ghost use Rattle.memo_cells.specs.declared.version.Version.{Version};

/// What is kept of a model and of stored cells are values on each version that has both, so that a memo which was made
/// for a version serves who reads over it.
pub fn kept_values_are_values_on_the_version()
    ensures { (kept : Version) (version : NumberedVersion) → kept.model.value ≡ version.model
        → kept.stored.value ≡ version.stored → AreValuesOn version (cell_value kept) }
{}
