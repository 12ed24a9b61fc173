//! Load scripts as their text says them: sections, statements and the expressions in them, and how deep they may be.
//!
//! Read in this order: [`Script`], the three sections; [`Line`], a statement; [`Expr`], an expression; [`Counted`],
//! which goes over a text token by token and refuses the first one that is too deep, or an unknown function.
//! `specs/ScriptText.antt` has the grammar of a text, `specs/Statement.antt` that of its statements, and
//! `specs/Expression.antt` that of their expressions.
#![tactic(auto)]

mod counted;
mod excess;
mod expr;
mod line;
mod script;

pub use counted::{Counted, ScriptTextPlace, Stage, begun};
pub use excess::Excess;
pub use expr::{Expr, ScriptFun, ScriptOp};
pub use line::{Arm, Line};
pub use script::{Block, Script, Section};
