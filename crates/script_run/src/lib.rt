//! The run of a load script.
//!
//! Read in this order: [`run`], which runs a script over records; [`WorkCells`], the cells that it reads and writes;
//! [`Ran`] and [`LoadReason`], how it ends, and [`Reject`], a record that it passed over. `specs/Load.antt` says what a
//! load is, `specs/Meaning.antt` what its statements do, and `script_values` what its expressions give.
#![tactic(auto)]

mod change;
mod ending;
mod execution_place;
mod here;
mod progress;
mod ran;
mod reject;
mod running;
mod sections;
mod statements;

pub use ran::Ran;
pub use reject::Reject;
pub use running::run;
pub use script_bound::BoundScript;
pub use script_tree::Section;
pub use script_values::{LoadReason, Text, WorkCells};
pub use user_text::{LoadParams, ParamText as Param};
