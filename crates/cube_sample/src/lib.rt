//! A sample of any size: a model of sales, loads with generated records, and users who run them.
//!
//! Read `specs/Sample.antt` first, which writes out every file, and then `specs/Summary.antt`.
#![tactic(auto)]

mod files;
mod generator;
mod model;
mod records;
mod summing;

pub use files::sample_files;
pub use summing::summary;
