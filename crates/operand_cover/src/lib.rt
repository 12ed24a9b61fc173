//! What covers an operand of a statement's N part, or would.
//!
//! Read `specs/Operands.antt` first, which references the operands of a formula are, and then `specs/Cover.antt`, the
//! lines of an operand. [`operand_lines`] makes them.
#![tactic(auto)]

mod lines;
mod operands;

pub use lines::operand_lines;
