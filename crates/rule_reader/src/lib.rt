//! The reader of a cube's rules.
//!
//! Read first [`parse`], which reads a whole text, and [`RuleFault`], why it refuses. `specs/Answers.antt` says what an
//! answer means; `specs/Readers` has the readers in the shape of the code.
#![tactic(auto)]

mod area;
mod basic;
mod bracket;
mod fault;
mod feeder;
mod formula;
mod language;
mod primary;
mod statement;
mod text;

pub use fault::RuleFault;
pub use text::parse;
