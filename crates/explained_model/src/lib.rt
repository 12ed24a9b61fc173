//! What explains why a check of the whole model refuses it.
//!
//! Read `specs/Late.antt` first: the lines of a reference that isn't earlier, in the model that is bound once more
//! from the files that the run has read (`specs/Files.antt`); [`late_lines`] makes them. `specs/Unfed.antt` has the
//! lines of an operand that isn't fed, which [`unfed_lines`] makes.
#![tactic(auto)]

mod files;
mod late;
mod reads;
mod unfed;

pub use late::late_lines;
pub use unfed::unfed_lines;
