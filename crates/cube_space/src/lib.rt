//! The cells of a model: its dimensions, its cubes over them, and a number for each cell.
//!
//! Read in this order: [`CubeShape`], which dimensions a cube has; [`Space`], which is made of dimensions and shapes
//! and turns the place of a cell (its cube, and one element of each dimension) into its number and back;
//! [`SpaceFault`], why dimensions and shapes are no space; [`axis`] and [`axis_called`], the dimensions of a cube by
//! place and by name.
//!
//! Contracts see a space as a `Layout`, the list of its dimensions and the list of its shapes, and cite
//! `specs/Cells.antt`; `specs/Axes.antt` says which dimension a name means.
#![tactic(auto)]

mod axes;
mod digits;
mod fault;
mod leaves;
mod names;
mod numbering;
mod run;
mod shape;
mod space;

pub use axes::{axis, axis_called, axis_count, axis_number};
pub use fault::SpaceFault;
pub use shape::CubeShape;
pub use space::{MAX_DIMENSIONS, MAX_MODEL_CELLS, MIN_DIMENSIONS, Space};
