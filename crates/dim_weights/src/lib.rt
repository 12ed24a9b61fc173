//! How much a leaf of a dimension counts in each element.
//!
//! An element consolidates its components, each with a weight. So a leaf counts in an element by all the ways that lead
//! down to it: the coefficient is the sum over them of the product of their weights. It is TM1's weighted
//! consolidation; that a component named twice counts twice is our own rule.
//!
//! - [`Weights`] is the table of all coefficients of a dimension.
//! - [`WeightFault`] says why a dimension has none.
//! - The laws say that the coefficients are the only solution of their equations.
#![tactic(auto)]

pub use fault::WeightFault;
pub use laws::{coefficients_solve, only_coefficients_solve, only_leaves_count};
pub use weights::{MAX_COEFFICIENT, MAX_PAIRS, Weights};

mod alike;
mod fault;
mod laws;
mod levels;
mod merged;
mod rows;
mod sums;
mod table;
mod weights;
