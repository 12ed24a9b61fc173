//! The cells that a load reads and writes, as its script names them: by texts.
//!
//! [`LoadCells`] is a [`Work`](cell_reader::Work) under names. `specs/Loads.antt` says what it is to a script.
#![tactic(auto)]

pub use load::LoadCells;

mod below;
mod elements;
mod found;
mod load;
mod names;
mod zeros;
