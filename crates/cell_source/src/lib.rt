//! Who tells the values of cells: what a table is made of, whatever stands behind it.
//!
//! [`Cells`] is a trait, so that who shows values needn't know how they are read.
#![tactic(auto)]

pub use cells::Cells;

mod cells;
