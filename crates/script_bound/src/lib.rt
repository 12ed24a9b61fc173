//! Load scripts as they are run: statements have their numbers, and variables and columns are numbers too.
//!
//! Read in this order: [`BoundScript`], the three sections; [`Statement`], a statement; [`Term`], an expression.
#![tactic(auto)]

mod script;
mod statement;
mod term;

pub use script::BoundScript;
pub use statement::{Case, Statement};
pub use term::{ElementFun, Term, TextFun};
