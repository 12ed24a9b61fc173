ghost use Rattle.sandbox.specs.Laws.{PublishingIsAtOnce, SandboxIsInTurn};

use crate::layered::Layered;

/// Publishing a sandbox is the same as its kept writes, one after another, done at once on the version of its place:
/// it is one entry, and the version after it is the content on which the user's commands in the sandbox acted.
pub fn publishing_is_the_kept_writes_at_once<W: Layered>()
    ensures publish { PublishingIsAtOnce W.effect W.after W.sandbox }
    ensures kept { SandboxIsInTurn W.effect W.after W.sandbox }
{}
