//! The lines of what a model accepts and is hardly ever meant.
//!
//! Read `specs/Notes.antt` first: the lines of the notes of a model, each with its place in the file that the run has
//! read. Those of the model's text are in `specs/Bare.antt`. [`note_lines`] makes them. `specs/Inside/RuleTexts.antt`
//! says what is known of a rule text while the places of its notes are found, and `specs/Inside/Lines.antt` has the
//! lines of one text.
#![tactic(auto)]

mod bare;
mod noted;
mod rule_text;

pub use noted::note_lines;
