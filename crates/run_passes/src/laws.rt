ghost use Rattle.run_passes.specs.Laws.{FrontsReadAlike};

/// What a run reads of a text says as much as the whole text: the same tokens, and the same first fault or none.
pub fn fronts_read_alike()
    ensures { FrontsReadAlike }
{}
