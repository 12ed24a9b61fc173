//! The reader of load scripts.
//!
//! Read first [`parse`], which reads a whole text, and [`ScriptFault`], why it refuses. `specs/Answers.antt` says what
//! an answer means; `specs/Readers` has the readers in the shape of the code.
#![tactic(auto)]

mod arguments;
mod fault;
mod language;
mod primary;
mod section;
mod statement;
mod text;
mod value;
mod within;
mod words;

pub use fault::ScriptFault;
pub use text::parse;
