//! The example that explains to a planner why the order check refuses a reference: a cell of the statement's area, and
//! the cell that it reads from there, which doesn't stand before it.
//!
//! [`late_example`] finds the first such cell, by its number. An area may have far more cells than can be walked. So it
//! asks `ref_order` for the most that a cell which is read has more than its cell, and narrows the area, dimension by
//! dimension, to the first element with which that is still too much. `specs/Example.antt` says what an example is.
#![tactic(auto)]

pub use example::{LateExample, late_example};

mod example;
mod narrowing;
mod position;
mod rank;
mod reads;
mod search;
mod shown;
