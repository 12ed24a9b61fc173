//! Views: tables of the cells of a cube, for planners to read.
//!
//! Read in this order: [`View`], what is shown, with its [`Axis`]es; [`bind`], which makes it of a view's text, and
//! [`ViewFault`], why it is refused; [`view`], which writes the table. `specs/Binding.antt` says what a text means,
//! `specs/Views.antt` which lines and cells a view has, and `specs/Table.antt` how they are written.
#![tactic(auto)]

pub use binding::bind;
pub use fault::ViewFault;
pub use shape::{Axis, View};
pub use table::view;

mod binding;
mod fault;
mod fields;
mod grid;
mod lines;
mod reading;
mod sets;
mod shape;
mod table;
mod written;
mod zeros;
