//! Orders of elements in which components come first, and the loops that forbid one.
#![tactic(auto)]

mod components;
mod growth;
mod joining;
mod levels;
mod likely;
mod likely_ranks;
mod loops;
mod members;
mod order;
mod ranks;

pub use components::Components;
pub use levels::levels_of;
pub use loops::first_on_loop;
pub use order::order_of;
