//! Model files: the dimensions, cubes and scripts of a model.
//!
//! Read in this order: [`read`], which reads the bytes of a model file; [`ModelText`], what it gives;
//! [`ModelTextFault`], why it refuses; [`print`], which writes a text that reads back.
#![tactic(auto)]

mod cube_printing;
mod cubes;
mod dimensions;
mod fault;
mod model;
mod order;
mod order_line;
mod order_printing;
mod partial;
mod parts;
mod pieces;
mod printing;
mod reading;
mod scripts;
mod section;
mod statements;

pub use fault::{ModelTextCause, ModelTextFault};
pub use model::ModelText;
pub use order::{OrderLine, OrderWord};
pub use parts::{CubeText, ScriptText};
pub use printing::print;
pub use reading::read;
