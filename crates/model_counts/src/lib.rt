//! How much a model holds, and the line that tells that it is accepted.
//!
//! `specs/Counts.antt` says what is counted.
#![tactic(auto)]

mod counting;

pub use counting::{accepted_text, feeder_statements};
