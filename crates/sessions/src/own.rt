ghost use Rattle.std.specs.Prelude.{◌≡◌, ◌⊎◌};
ghost use Rattle.sessions.specs.Inside.Decided.{without_private};

use history::World;
use sandbox::{Layered, SandboxOf};

/// A user's sandbox, if one is open, and the number of the version over which it was laid last.
#[derive(Drop)]
pub struct OwnOf<Y, S> {
    pub(crate) sandbox: Option<SandboxOf<Y, S>>,
    pub(crate) laid_at: u64,
}

/// What a user of a world has alone.
pub type Own<W> = OwnOf<<W as Layered>::Layer, <W as World>::State>;

impl<Y: Drop, S: Drop> OwnOf<Y, S> {
    // The version of this number is the newest. What was laid over another one serves no longer.
    pub(crate) fn move_to(&mut self, place: u64)
        ensures at { self.new.laid_at ≡ place }
        ensures sandbox { ((self.old.laid_at ≡ place) × (self.new.sandbox ≡ self.old.sandbox))
            ⊎ (self.new.sandbox ≡ without_private self.old.sandbox) }
    {
        if self.laid_at != place {
            self.laid_at = place;
            drop_private(&mut self.sandbox);
        }
    }
}

// The sandbox without its private state.
fn drop_private<Y: Drop, S: Drop>(sandbox: &mut Option<SandboxOf<Y, S>>)
    ensures { sandbox.new ≡ without_private sandbox.old }
{
    if let Some(open) = sandbox {
        open.private = None;
    }
}
