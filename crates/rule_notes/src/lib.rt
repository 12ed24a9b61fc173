//! What is accepted in a model and hardly ever meant.
//!
//! [`rule_notes`] lists it, as [`Note`]s: parts of statements that give no cell its value, since an earlier statement
//! takes all of their cells, and references that name no cell. `specs/Noted.antt` says which notes there are.
//!
//! Nothing here goes over cells. Whether an area has another is asked of the elements that both have in each dimension.
//! Whether a reference names a cell is asked of `ref_order`, dimension by dimension: the most by which a named cell may
//! exceed its cell is there just where one is named. What is known of a map serves all references that share it.
#![tactic(auto)]

pub use note::Note;
pub use notes::rule_notes;

mod areas;
mod continues;
mod counted;
mod cube_view;
mod finals;
mod named;
mod nameless;
mod note;
mod notes;
mod own;
mod reads;
mod taken;
