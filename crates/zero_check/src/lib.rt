//! The zero test: it shows the formula of a rule to be 0 wherever its cell is neither stored nor fed, and names the
//! operand that is blamed where it fails.
//!
//! Verdict and operand come from one pass over the formula, in which a [`Cover`] is asked once about each reference.
//! `specs/ZeroTest.antt` of `rule_laws` says what is found of each part.
#![tactic(auto)]

pub use blame::{blamed_branch, blamed_side};
pub use count::{operands, operands_of_truth};
pub use cover::Cover;
pub use find::{
    finding, of_choice, of_continue, of_function, of_number, of_operand, of_operation, of_table,
    truth_finding, zero_verdict,
};
pub use operation::{
    is_divisor, is_sure_number, known_value, sure_and, sure_comparison, sure_not, sure_or,
    written_as, zero_choice, zero_operation,
};

mod blame;
mod count;
mod cover;
mod find;
mod operation;
