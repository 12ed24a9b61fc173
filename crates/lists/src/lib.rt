//! Lists as values: [`ListOf`], what a plain vector holds, without its capacity; [`Numbered`], keys that are numbered
//! from 0 in the order in which they came; and a law on rising lists of numbers.
//!
//! `proofs/` has what other crates use of stable sorts, of first places and of rising lists.
#![tactic(auto)]

mod list;
mod numbered;
mod rising_lists;
mod table_keys;

pub use list::ListOf;
pub use numbered::Numbered;
pub use rising_lists::rising_lists_are_told_by_their_members;
pub use table_keys::TableKeys;
