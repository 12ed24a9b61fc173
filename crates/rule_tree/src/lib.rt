//! The rules of a cube as their text says them: statements, feeders, and the formulas in them, and how many there may
//! be.
//!
//! Read in this order: [`RuleText`], the rules of a cube; [`Tree`], a formula; [`Counted`], which goes over a text
//! token by token and refuses the first one that is too many. `specs/RuleText.antt` has the grammar of a text,
//! `specs/Formula.antt` that of its formulas, and `specs/Sizes.antt` how large a text is at most.
#![tactic(auto)]

mod counted;
mod excess;
mod rule;
mod tree;

pub use counted::{Counted, MAX_STATEMENTS, RuleTextPlace};
pub use excess::Excess;
pub use rule::{BodyText, EntryText, FeederText, RuleText, StatementText, TargetText};
pub use tree::{SimpleText, Tree, TreeOp};
