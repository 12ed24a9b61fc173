//! From a model text and the files of its cubes' rules to the bound model, of which no check has seen the whole, or to
//! the first refusal.
//!
//! Read in this order: [`bind`], which makes the model; [`RuleFiles`], what it is given beside the text;
//! [`DeployFault`], why it refuses. `specs/Binding.antt` has its stages in their order, `specs/Rules.antt` those of
//! rules, and `specs/Foundation.antt` those of dimensions and cubes.
#![tactic(auto)]

mod binding;
mod bound;
mod circles;
mod coefficients;
mod cubes;
mod fault;
mod file;
mod foundation;
mod ordering;
mod products;
mod ranking;
mod rule_files;
mod rule_texts;
mod texts;

pub use bound::{Bound, bind};
pub use fault::{At, DeployCause, DeployFault};
pub use rule_files::{RuleFiles, fault_in, no_rule_files};
