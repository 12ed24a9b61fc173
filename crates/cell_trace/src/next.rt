ghost use Rattle.std.specs.Prelude.{◌≡◌, ◌+◌, ◌<◌, ◌^◌};
ghost use Rattle.rule_model.specs.Conditions.{read_count};
ghost use Rattle.cell_trace.specs.Trace.{first_number};

use crate::references::references;
use rule_laws::Formula;
use rule_model::{Form, Statement};

/// A statement that has a part for the cell.
#[derive(Drop)]
pub(crate) struct Next<'a> {
    /// Its place among the statements of the cell's cube, from 0.
    pub place: u32,
    /// The number of the first reference of its part for the cell.
    pub first: u64,
    pub formula: &'a Formula,
}

/// The number of the first reference of a statement's part for leaf cells, or for consolidated ones.
pub(crate) fn first_number(statement: &Statement, is_leaf: bool) -> u64
    requires { read_count statement.now.leaf + read_count statement.now.cons < 2 ^ 32 }
    ensures { result ≡ first_number is_leaf statement.now }
{
    match statement.form {
        Form::LeafFirst if !is_leaf => behind(&statement.leaf),
        Form::ConsFirst if is_leaf => behind(&statement.cons),
        _ => 1,
    }
}

// The number of the first reference behind a part.
fn behind(part: &Option<Formula>) -> u64
    requires { read_count part.now < 2 ^ 32 }
    ensures { result ≡ read_count part.now + 1 }
{
    match part {
        Some(formula) => u64::from(references(formula)) + 1,
        None => 1,
    }
}
