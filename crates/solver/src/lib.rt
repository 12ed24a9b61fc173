//! A stack machine: it answers a question that leads to further questions, without recursion.
//!
//! - A [`Problem`] says how a question is worked on: a frame holds what is done of it so far, and one step of a frame
//!   answers its question or asks another one.
//! - [`answer`] keeps the frames that wait in a list. It ends, since each step takes from the work that is left.
//!
//! Nothing here knows what the questions are about.
#![tactic(auto)]

pub use machine::answer;
pub use problem::{Opened, Problem, Turn};

mod machine;
mod problem;
