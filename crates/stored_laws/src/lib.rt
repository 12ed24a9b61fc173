//! What cells have by what is stored alone: a sum over the entries of a store is the sum over all leaf cells below.
//!
//! The laws do nothing when they run.
#![tactic(auto)]

pub use laws::{sums_over_entries_are_sums_below, ungoverned_cells_have_what_is_stored};

mod laws;
