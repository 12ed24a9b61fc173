//! Cases as data: what the lines of a case spell, and how an answer is written below a case.
//!
//! A file of cases has an empty line between two cases. The first line of a case is its heading, `KIND: TITLE`. A
//! program that runs cases writes each case again, and its answer below it, where each line begins with `> `.
#![tactic(auto)]

mod answer;
mod cases;
mod spelled;
mod texts;

pub use answer::write_answer;
pub use cases::{Answers, answered};
pub use spelled::spell;
pub use texts::Texts;
