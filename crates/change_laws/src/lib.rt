//! The fed cells after a change of what is stored, from those before it.
//!
//! Feeds may run in circles, so no count of sources says whether a cell is still fed. What the removed cells lead to is
//! put at risk, as far as no cell that is sure to be fed stops it; what a stored or kept cell feeds comes again; and
//! from there on the fed cells grow. The laws say that this gives just the fed cells, circles and all.
//!
//! The laws do nothing when they run.
#![tactic(auto)]

pub use laws::{
    changes_are_regrown, fed_cells_after_a_change, few_looks_are_sure, more_stored_feed_more,
    regrown_cells_are_fed,
};

mod laws;
