//! Sandboxes: a user's writes that are kept apart until the user publishes them, as one commit, or discards them.
//!
//! - [`Act`] is what a user does: open, publish or discard a sandbox, or a command of the world.
//! - [`Layered`] is a world that can lay kept writes over a state.
//! - [`Sandbox`] is an open one: what it keeps, and a private state, the version with that laid over it.
//! - [`read_in`] answers all acts but those that may commit.
//!
//! `specs/Sandboxes.antt` says what each act is answered, and `specs/Laws.antt` what publishing is.
#![tactic(auto)]

mod act;
mod laws;
mod layered;
mod open;
mod reading;

pub use act::{Act, Note};
pub use laws::publishing_is_the_kept_writes_at_once;
pub use layered::{Layered, Over};
pub use open::{Sandbox, SandboxOf};
pub use reading::read_in;
