//! Whether feeders cover a reference of a statement, decided dimension by dimension over the tables of a model. Nothing
//! here takes memory.
//!
//! [`is_covered`] decides it for one reference of one statement. That its answer is right for every cell of the area is
//! the law of `cover_laws`.
#![tactic(auto)]

pub use answers::CoverAnswers;
pub use covered::{has_cover, is_covered, names_no_governed};

mod answers;
mod back;
mod covered;
mod each;
mod feeds;
mod hints;
mod named;
mod narrow;
mod overs;
mod possible;
mod question;
mod reach;
mod reference_view;
mod set;
mod shift;
mod source;
mod sourced;
mod table;
mod test;
mod tests;
