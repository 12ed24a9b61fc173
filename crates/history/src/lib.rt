//! The words for histories: what a world of commands is, which histories of its commits are legal, and what a run of
//! one user's commands against such a history is. Contracts of the crates above cite the definitions of `specs/`.
//!
//! Read `World` first, then in `specs` Version, UserRun, LegalHistory and Laws.
#![tactic(auto)]

mod effect;
mod entry;
mod laws;
mod told;
mod world;

pub use effect::Effect;
pub use entry::Entry;
pub use laws::{one_user_has_one_history, runs_are_read_by_place, runs_go_on, runs_make_a_history};
pub use told::Told;
pub use world::World;
