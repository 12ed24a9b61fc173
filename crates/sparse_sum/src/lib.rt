//! Totals over what is stored and fed.
//!
//! A leaf cell that is neither stored nor fed is 0, so a total is the weighted sum of those that are. They are found
//! by jumps, from each to the next, without a list of them.
//!
//! - [`Walk`] gives the stored or fed leaf cells below a cell, rising, each once, and sums the values that it is given.
//! - [`sum_under`] asks an implementation of [`Leaves`] for the value of each of them.
//! - [`live_cells_are_few`] says how many there can be.
//!
//! `specs/Live.antt` says which cells these are. No call here takes memory.
#![tactic(auto)]

pub use laws::live_cells_are_few;
pub use leaves::Leaves;
pub use total::sum_under;
pub use walk::{Leaf, Walk};

mod candidates;
mod laws;
mod leaves;
mod live;
mod total;
mod walk;
