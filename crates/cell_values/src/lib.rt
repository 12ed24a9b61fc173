//! The value of a cell on a version of the numbers, for every cell, without plain evaluation of all of them.
//!
//! [`value_of`] works it out by the rules, over stored and fed leaf cells alone, and by what a memory already knows.
//! Nothing in it recurses: what is evaluated before something else waits in a list of frames.
//! [`kept_values_are_values_on_the_version`] says which memories serve.
//!
//! `specs/Reading.antt` has what its contract says; `specs/Inside/` has the questions that come up on the way and the
//! states of the work on them.
#![tactic(auto)]

pub use laws::kept_values_are_values_on_the_version;
pub use read::value_of;

mod answers;
mod begins;
mod components;
mod evaluations;
mod frames;
mod keeping;
mod laws;
mod leaves;
mod machine;
mod missing;
mod origin;
mod read;
mod sound;
mod told;
mod turns;
