//! The fed cells of a system as a list: what can be reached by chains of feeds is reached in as many rounds as there
//! are cells, so that the fed cells can be counted.
//!
//! The laws do nothing when they run.
#![tactic(auto)]

pub use laws::fed_cells_are_a_list;

mod laws;
