//! The order check of a model: that what its formulas read stands before their cells in the declared order, and that
//! the positions of that order aren't too many together.
//!
//! [`check_order`] decides it, and names the first fault as an [`OrderFault`]. `specs/Verdict.antt` says which that
//! is. What is remembered of the maps of references takes memory, and no answer rests on it.
#![tactic(auto)]

pub use check::check_order;
pub use fault::OrderFault;
pub use height::MAX_HEIGHT;

mod check;
mod fault;
mod height;
mod late;
mod tops;
mod walk;
