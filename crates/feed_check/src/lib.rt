//! The feeder check of a model: that the rules of each cube with `SKIPCHECK` are covered by feeders, so that a leaf
//! cell that is neither stored nor fed is 0, and that no dense cube is too large to be fed whole.
//!
//! [`check_feeders`] decides it, and names the first fault as a [`FeedCheckFault`]. `specs/Verdict.antt` says which
//! that is. Nothing here takes memory.
#![tactic(auto)]

pub use check::check_feeders;
pub use fault::FeedCheckFault;
pub use size::MAX_DENSE;

mod check;
mod cover;
mod fault;
mod size;
mod statement;
