//! What explains a refusal: where it stands in its file, what the file has there, and the limit that is passed.
//!
//! Read `specs/Explanation.antt` first, the lines of an explanation. `specs/Places.antt` says what the line and the
//! column of a byte are, `specs/Statements.antt` where a statement, a feeder and a reference begin, and
//! `specs/Operands.antt` where an operand does. `specs/Written.antt` says where both end, and `specs/Limits.antt` has
//! the limits. [`explanation`] makes the lines. Many places of one text are found by reading it once, with a
//! [`TextCursor`] (`specs/Cursor.antt`), [`statement_tokens`] and [`ReferencesLeft`] (`specs/Tables.antt`).
#![tactic(auto)]

mod cursor;
mod limits;
mod lines;
mod operands;
mod places;
mod statements;
mod tables;
mod written;

pub use cursor::{TextCursor, push_place_on};
pub use lines::explanation;
pub use statements::tokens_from;
pub use tables::{ReferencesLeft, reference_tokens_on, statement_tokens};
pub use written::begin_of;
