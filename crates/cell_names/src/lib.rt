//! How a cell is named in what users read: its cube and its elements, each name in quotes, as the model defines it.
//!
//! `specs/CellNames.antt` says how. [`write_cell_named`] names a cell as a command does; [`write_cell_cube`] and
//! [`write_cell_elements`] write its two parts, [`write_dimension`] the name of a dimension of a cube.
//! [`write_quoted_name`] writes any name in quotes, and [`write_file_name`] one without; neither writes a line end.
#![tactic(auto)]

mod cells;
mod names;

pub use cells::{write_cell_cube, write_cell_elements, write_cell_named, write_dimension};
pub use names::{write_file_name, write_quoted_name};
