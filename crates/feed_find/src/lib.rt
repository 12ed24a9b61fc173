//! Feeders that are found: for which references of a model's N parts, and the model that has them.
//!
//! The N part of a statement has to be 0 wherever its cell is neither stored nor fed. [`find`] goes over it as the zero
//! test does, chooses references that make it 0 once feeders cover them, and turns each of these round. Read in this
//! order: `specs/Choosing.antt`, which references are chosen; `specs/Found.antt`, what is found for a model; and
//! `specs/Added.antt`, the model with it, which [`with_found`] makes. [`choose`] answers for one reference.
#![tactic(auto)]

mod added;
mod asked;
mod choice;
mod chosen;
mod count;
mod found_table;
mod gathered;
mod joined;
mod kept;
mod need;
mod needed;
mod needs;
mod picks;
mod same;
mod search;
mod truths;
mod unturned;

pub use added::with_found;
pub use asked::Asked;
pub use choice::{Choice, choose};
pub use chosen::FoundFeeder;
pub use kept::Kept;
pub use search::{Found, find};
pub use unturned::Unturned;
