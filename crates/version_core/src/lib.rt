//! The pure core of the server: one history of commits, a memo of cell values, and for each user the commands that were
//! given, the replies, and a pin with a try. It runs no thread and reads no clock: events come in the order in which
//! `Core::step` is called, and what holds of every order holds of every interleaving of users.
//!
//! Read `Event` first, then `specs/Events.antt` for what each event does, and `one_history` for what holds of every
//! run. `specs/Inside/` has what a core keeps for its own proof.
#![tactic(auto)]

mod event;
mod known;
mod runs;
mod state;
mod user;

pub use event::Event;
pub use runs::one_history;
pub use state::Core;
