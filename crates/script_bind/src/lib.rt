//! From the tree of a load script to the script that is run: each statement gets its number, and each variable and
//! column its place. Nothing is looked up by its text while a load runs.
//!
//! Read in this order: [`bind`]; `specs/Binding.antt`, the bound script of a script; `specs/Variables.antt`, which
//! variables it has.
#![tactic(auto)]

mod binding;
mod laws;
mod operator;
mod statements;
mod terms;
mod variables;

pub use binding::bind;
pub use laws::statements_are_numbered_from_1;
