ghost use Rattle.std.specs.Prelude.{◌≡◌, ◌||◌, IfOk, map};
ghost use Rattle.rule_model.specs.Input.{has_stet, has_continue};
ghost use Rattle.rule_model.specs.Inside.Parts.{truth_has_stet, truth_has_continue};
ghost use Rattle.rule_model.specs.Inside.Words.{leaf_words, rule_words};

use crate::rules::{CubeRules, Statement};
use lists::ListOf;
use rule_laws::{Formula, Truth};
use std::alloc::{AllocError, Global};

/// Which words for what comes without a statement stand in a formula.
#[derive(Clone, Copy)]
pub struct Words {
    /// `STET`
    pub stet: bool,
    /// `CONTINUE`
    pub rest: bool,
}

impl Words {
    const NONE: Words = Words {
        stet: false,
        rest: false,
    };

    fn or(self, other: Words) -> Words
        ensures stet { result.stet ≡ (self.stet || other.stet) }
        ensures rest { result.rest ≡ (self.rest || other.rest) }
    {
        Words {
            stet: self.stet || other.stet,
            rest: self.rest || other.rest,
        }
    }
}

/// Those that stand in the N parts of each cube's statements.
pub fn words_of_cubes(alloc: Global, cubes: &[CubeRules]) -> Result<Vec<ListOf<Words>>, AllocError>
    ensures { IfOk result (λ words. words.items ≡ map rule_words cubes.now) }
{
    let mut words = Vec::with_capacity(alloc, cubes.len())?;
    'each: for place in 0..cubes.len() {
        let of_cube = words_of_statements(alloc, cubes[place].statements.as_slice())?;
        words.push(of_cube)?;
    }
    Ok(words)
}

fn words_of_statements(alloc: Global, statements: &[Statement]) -> Result<ListOf<Words>, AllocError>
    ensures { IfOk result (λ words. words ≡ map leaf_words statements.now) }
{
    let mut words = Vec::with_capacity(alloc, statements.len())?;
    'each: for place in 0..statements.len() {
        words.push(words_of_leaf(&statements[place]))?;
    }
    Ok(ListOf::new(words))
}

fn words_of_leaf(statement: &Statement) -> Words
    ensures { result ≡ leaf_words statement.now }
{
    match &statement.leaf {
        Some(formula) => words_of(formula),
        None => Words::NONE,
    }
}

/// Those that stand in a formula.
#[cycle(words)]
fn words_of(formula: &Formula) -> Words
    ensures stet { result.stet ≡ has_stet formula.now }
    ensures rest { result.rest ≡ has_continue formula.now }
{
    match formula {
        Formula::Number(_) => Words::NONE,
        Formula::Stet => Words {
            stet: true,
            rest: false,
        },
        Formula::Continue => Words {
            stet: false,
            rest: true,
        },
        Formula::Children(_) => Words::NONE,
        Formula::Ref(_) => Words::NONE,
        Formula::Table(_, _) => Words::NONE,
        Formula::Binary(_, left, right) => words_of(left.get()).or(words_of(right.get())),
        Formula::Unary(_, inner) => words_of(inner.get()),
        Formula::If(truth, left, right) => truth_words_of(truth.get())
            .or(words_of(left.get()))
            .or(words_of(right.get())),
    }
}

/// Those that stand in a condition.
#[cycle(words)]
fn truth_words_of(truth: &Truth) -> Words
    ensures stet { result.stet ≡ truth_has_stet truth.now }
    ensures rest { result.rest ≡ truth_has_continue truth.now }
{
    match truth {
        Truth::Compare(_, left, right) => words_of(left).or(words_of(right)),
        Truth::And(left, right) => truth_words_of(left.get()).or(truth_words_of(right.get())),
        Truth::Or(left, right) => truth_words_of(left.get()).or(truth_words_of(right.get())),
        Truth::Not(inner) => truth_words_of(inner.get()),
    }
}
