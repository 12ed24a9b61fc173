ghost use Rattle.std.specs.Prelude.{◌≡◌, IfOk, map, is_some};
ghost use Rattle.rule_model.specs.Inside.Parts.{part_of_kind};
ghost use Rattle.rule_notes.specs.Reached.{is_final};
ghost use Rattle.rule_notes.specs.Inside.Finals.{final_for, finals_of};

use crate::continues::continues;
use rule_laws::Formula;
use rule_model::Statement;
use std::alloc::{AllocError, Global};

/// Which parts of a statement are final: they give their cells their values without the statements after it.
#[derive(Clone, Copy)]
pub struct Finals {
    /// The part for leaf cells.
    pub leaf: bool,
    /// The part for consolidated cells.
    pub cons: bool,
}

impl Finals {
    /// Whether the part for a kind of cells is, `true` for leaf cells.
    pub fn of_kind(self, kind: bool) -> bool
        ensures { result ≡ final_for self kind }
    {
        if kind { self.leaf } else { self.cons }
    }
}

/// Those of each statement.
pub fn all_finals(alloc: Global, statements: &[Statement]) -> Result<Vec<Finals>, AllocError>
    ensures { IfOk result (λ finals. finals.items ≡ map finals_of statements.now) }
{
    let mut finals = Vec::with_capacity(alloc, statements.len())?;
    'each: for place in 0..statements.len() {
        finals.push(finals_of(&statements[place]))?;
    }
    Ok(finals)
}

fn finals_of(statement: &Statement) -> Finals
    ensures { result ≡ finals_of statement.now }
{
    Finals {
        leaf: is_final(&statement.leaf),
        cons: is_final(&statement.cons),
    }
}

fn is_final(part: &Option<Formula>) -> bool
    ensures { result ≡ is_final part.now }
{
    match part {
        Some(formula) => !continues(formula),
        None => false,
    }
}

/// Whether a statement has a part for a kind of cells.
pub fn has_part(statement: &Statement, kind: bool) -> bool
    ensures { result ≡ is_some (part_of_kind statement.now kind) }
{
    if kind {
        statement.leaf.is_some()
    } else {
        statement.cons.is_some()
    }
}
