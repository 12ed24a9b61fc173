//! Least ranks of the nodes of a graph with weak and strict arrows, or a closed walk that shows that none fit.
//!
//! A rank falls along a strict arrow, and along a weak one it doesn't rise. [`least_ranks`] finds the least ranks that
//! fit in one walk over the graph; [`a_closed_walk_fits_no_ranks`] says that it gives either ranks or a walk rightly.
#![tactic(auto)]

mod arrow;
mod cycle;
mod fault;
mod graph;
mod laws;
mod parts;
mod search;
mod state;
mod walk;

pub use arrow::{Arrow, Step};
pub use fault::RankFault;
pub use graph::Graph;
pub use laws::a_closed_walk_fits_no_ranks;
pub use search::least_ranks;
