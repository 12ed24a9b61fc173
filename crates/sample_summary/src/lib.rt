//! The summary of a sample's run, read off the version that it has left.
//!
//! What it is stands in `specs/Reading.antt`.
#![tactic(auto)]

mod reading;

pub use reading::sample_text;
