//! Cases of what evaluation asks and what feeders feed, which no view shows. What rules give and why a model is refused
//! are cases of whole runs, in `run_cases`.
//!
//! A case is a heading and its files:
//!
//! ```text
//! fed: a feeder to a total             KIND: TITLE
//! file model                           the model text, of the lines that follow
//! +plan                                the lines of the text that is named `plan`
//! file rules                           the rules of the first cube; `file rules 2` those of the second
//! |['Sales'] = N: 1;                   a line, with its line end
//! file user                            PUT and GET commands
//! |GET 'Plan' ('Actual', 'Q1', 'Sales');
//! ```
//!
//! Lines of a file are those of [`case_lines::spell`]. A case `text: NAME` gives its lines a name, for later cases.
//!
//! What is printed of a case is why the model is refused, or how many statements and feeders it has, and then for each
//! command whether its number is stored, or the value. The order of the rules is checked and what feeders cover isn't,
//! so that a model without feeders has cases too.
//!
//! - In a case `course: TITLE` each value has behind it how it comes: by which statements, which cell a single
//!   reference names, and what an evaluation asks that begins again with each answer.
//! - In a case `fed: TITLE` a stored number has behind it how many cells are then fed, and the value of a total how
//!   many stored or fed cells a walk finds below it. After the commands stand the fed cells, rising; of more than 40
//!   the first and the last.
#![tactic(auto)]

mod cases;
mod commands;
mod courses;
mod fed;
mod files;
mod kind;
mod models;
mod refusal;
mod values;

pub use cases::answer_to;
