//! Values of cells that are kept with a version, without a lock, for all who read that version.
//!
//! - [`Version`] is what the values are of: a version's number, its model and what is stored.
//! - [`Memo`] has the values, and a [`MemoSeat`] is one reader's place at it. [`Memo::look`] looks for a cell's value,
//!   [`Memo::keep`] keeps one, [`Memo::reserve`] takes the place of one to come, [`Memo::split`] makes a seat for
//!   another reader, and [`Memo::join`] takes one back.
//! - [`Look`] and [`Kept`] are what a look and a keep answer.
//! - [`SharedMemo`] is a memo with the seat of one reader, and [`SharedMemo::share`] makes one for another. It also has
//!   the values that this reader holds for itself, since their cells found no slot: [`Memory::recall`].
//! - [`Memory`] is what a reader needs of it, for readers over any memory.
//!
//! A memo has a fixed count of slots. Each cell falls into one of them, by its number, and each slot has the value of
//! one cell, the first that claims it, for as long as the memo lasts. So a memo takes no memory once it is made,
//! and no call waits for another reader.
//!
//! Contracts speak of what a seat knows, `specs/Knowledge.antt`, and of the values on a version, `specs/Values.antt`.
#![tactic(auto)]

pub use answers::{Kept, Look};
pub use held::MAX_HELD;
pub use memo::Memo;
pub use memory::Memory;
pub use seat::MemoSeat;
pub use shared::SharedMemo;
pub use version::Version;

mod answers;
mod coding;
mod held;
mod looks;
mod memo;
mod memory;
mod plays;
mod seat;
mod seats;
mod shared;
mod sharing;
mod steps;
mod version;
