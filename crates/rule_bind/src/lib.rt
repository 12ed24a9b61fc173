//! Binding: what the text of a cube's rules means in its model.
//!
//! Read in this order: [`bind`], which turns the text into statements and feeders over numbers; [`BindFault`], why it
//! refuses, with the statement or the feeder; [`Standing`], where a formula stands; [`Test`], a comparison of a table
//! with a number, which the law of `bind_laws` names. `specs/Rules.antt` says what
//! statements and feeders mean, `specs/Formulas.antt` what a formula means, `specs/References.antt` what a `DB` names,
//! `specs/OwnNumbers.antt` what a number of the cell's own element means, `specs/Texts.antt` what a comparison of its
//! texts means, `specs/DimensionSize.antt` what the size of a dimension means, and `specs/Sureness.antt` which
//! comparisons are settled.
//!
//! A number of the cell's own element is bound to a table. In a part for leaf cells, a comparison of a table with a
//! number may be the same for all leaf elements that the statement's area has in the table's dimension: then it is
//! bound to a comparison of two numbers, so that the zero test knows it.
#![tactic(auto)]

pub use bind_areas::BindCause;
pub use bind_arguments::BoundMaps;
pub use binding::bind;
pub use fault::{BindAt, BindFault};
pub use rule_model::CubeRules;
pub use standing::Standing;
pub use sureness::Test;

mod binding;
mod boxes;
mod dimension_size;
mod fault;
mod feeder;
mod formula;
mod function;
mod operator;
mod own_numbers;
mod reference;
mod standing;
mod statement;
mod sureness;
mod texts;
