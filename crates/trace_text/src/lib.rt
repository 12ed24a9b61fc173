//! A trace as a user reads it: `trace N`, and N more lines, of fields with a tab between each two.
//!
//! [`trace`] writes it. `specs/TraceText.antt` says how each line of `cell_trace` is written, `cell_names` how a cell
//! is named in it, and [`a_trace_has_as_many_lines_as_it_says`] how long the text is (`specs/TextLaws.antt`).
#![tactic(auto)]

pub use laws_of_text::{a_trace_has_as_many_lines_as_it_says, traces_end_alike};
pub use reply::trace;

mod laws_of_text;
mod reply;
mod text;
