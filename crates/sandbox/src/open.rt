use crate::layered::Layered;
use history::World;

/// A user's open sandbox.
#[derive(Drop)]
pub struct SandboxOf<Y, S> {
    /// What is kept.
    pub layer: Y,
    /// The state of the version with the kept writes laid over it, from the first command in the sandbox on which it
    /// was laid. A sandbox without one is laid anew by its next command.
    pub private: Option<S>,
}

/// A sandbox of a world.
pub type Sandbox<W> = SandboxOf<<W as Layered>::Layer, <W as World>::State>;
