ghost use Rattle.sandbox.specs.Sandboxes.{IsSandboxing};
ghost use Rattle.user_session.specs.Content.{after};
ghost use Rattle.user_session.specs.Layers.{sandbox};
ghost use Rattle.user_session.specs.Planning.{effect};

/// What a sandbox keeps is the writes of its commands, one after another; and where a version with them can be had, a
/// PUBLISH commits just these, and else it is rejected.
pub fn layers_are_writes_in_turn()
    ensures { IsSandboxing effect after sandbox }
{}
