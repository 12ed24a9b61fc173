//! The sources of feeders: which leaf cells a feeder feeds from, and which of them feed a cell.
//!
//! [`SourceModel`] is a model in which the areas that have a cell are found fast: [`is_source`] asks for one area, and
//! [`is_any_source`] for those of all feeders. Feeders in a row often have the same area, and are asked for once:
//! [`SourceModel::span_end`]. [`is_fed_from`] reads feeders backwards: whether a cell of a set feeds a given one.
#![tactic(auto)]

pub use fed_from::{OutOfSteps, is_fed_from};
pub use same::is_same_area;
pub use source::is_source;
pub use source_model::SourceModel;
pub use sources::{is_any_source, is_leaf_cell};

mod above;
mod choices;
mod fed_from;
mod feeds;
mod jumps;
mod misses;
mod same;
mod source;
mod source_model;
mod sources;
mod spans;
