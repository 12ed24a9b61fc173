//! The printer of a cube's rules.
//!
//! Read first [`print`], which writes a text that reads back. `specs/Printed.antt` says what that means, and
//! `specs/Spelled.antt` which tokens are written. [`write_each_feeder`] writes feeders alone; `specs/Writable.antt`
//! says which can be written.
#![tactic(auto)]

mod parts;
mod printing;
mod tree_printing;

pub use printing::{print, write_each_feeder};
