//! The block of a dimension in a model file, read from its tokens and printed.
//!
//! Read in this order: [`read`], which reads one block; [`DimText`], what it gives; [`DimTextFault`], why it refuses;
//! [`print`], which writes a block that reads back. A reader of a larger text, which has something to say of the head,
//! calls [`body_at`] behind it.
#![tactic(auto)]

mod block;
mod element;
mod fault;
mod partial;
mod printing;
mod text;

pub use block::{body_at, read};
pub use fault::{DimTextCause, DimTextFault, Refusal};
pub use printing::print;
pub use text::DimText;
