//! Why a cell has its value: which rule statements are entered for it, what each of them reads, and what is added up.
//!
//! [`trace_of`] gives it as lines. `specs/Trace.antt` says which [`Line`]s there are, `specs/Visits.antt` what
//! evaluation reaches in a formula, and `specs/Lines.antt` that what the lines name is there.
//! [`printed_values_give_the_value`] says what a trace is good for (`specs/Laws.antt`). `trace_text` writes the lines
//! as a user reads them.
#![tactic(auto)]

pub use item::Item;
pub use laws::printed_values_give_the_value;
pub use line::{Line, MAX_PARTS, Part};
pub use trace::{Trace, trace_of};

mod chain;
mod entered;
mod here;
mod item;
mod known;
mod laws;
mod line;
mod listing;
mod next;
mod parts;
mod references;
mod sums;
mod trace;
mod visit;
