//! What statements give a cell, by what is known of other cells.
//!
//! [`evaluate`] goes from a statement on. It asks a [`Refs`] for the values of cells, which may answer at once,
//! remember, or stop the evaluation by a fault; [`Given`] answers from a list, for who evaluates by restarts.
//!
//! `specs/Readings.antt` says what statements give by the answers, `specs/Course.antt` which questions are asked for it
//! and how many statements are entered. [`a_table_gives_the_equations`] ties it to the rule equations, and
//! [`only_what_formulas_read_is_asked`] to what formulas read. Nothing here takes memory.
#![tactic(auto)]

pub use ask::Ask;
pub use evaluation::evaluate;
pub use given::Given;
pub use laws::{a_table_gives_the_equations, only_what_formulas_read_is_asked};
pub use refs::Refs;

mod ask;
mod continues;
mod evaluation;
mod formulas;
mod given;
mod here;
mod laws;
mod refs;
mod statements;
