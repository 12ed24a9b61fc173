//! Expressions, as formulas of rules and expressions of scripts have them: levels of operators, values and truths, and
//! how deep and how long one may be.
//!
//! A language gives a table of its operators and its primaries, as a [`Language`]; [`expression_at`] reads its levels
//! of operators, by what reads the expressions inside others ([`Inner`], for which [`Nested`] serves). [`Limits`]
//! counts.
//! `specs/Expression.antt` has the grammar, `specs/Readers` the readers in the shape of the code, and
//! `proofs/ExpressionExact.antt` that these are exact.
#![tactic(auto)]

mod expression;
mod language;
mod level;
mod limits;
mod lookahead;
mod nested;
mod operation;
mod sort;

pub use expression::expression_at;
pub use language::{Inner, Language};
pub use level::Level;
pub use limits::{Limits, MAX_INSIDE};
pub use lookahead::pair_comes;
pub use nested::Nested;
pub use sort::{Sort, Want};
