ghost use Rattle.std.specs.Prelude.{◌≡◌, ◌+◌, map, IfOk, OnOk};
ghost use Rattle.script_bind.specs.Binding as bound;
ghost use Rattle.script_bind.specs.Binding.{term_of, statement_of, case_of, in_order};

use crate::terms::{nothing, number_of, term_of, terms_of};
use script_bound::{Case, Statement, Term};
use script_tree::{Arm, Line};
use sqlite_items::Items;
use std::alloc::{AllocError, Global};
use word_table::WordTable;

/// Takes the next number. No memory holds so many statements that there is none.
fn take_number(next: &mut u32) -> Result<u32, AllocError>
    ensures taken { IfOk result (λ number. number ≡ next.old) }
    ensures left { OnOk result (next.new ≡ next.old + 1) }
{
    let number = *next;
    match number.checked_add(1) {
        Some(behind) => {
            *next = behind;
            Ok(number)
        }
        None => Err(AllocError),
    }
}

/// What is written, and the names of the cell.
#[tactic(auto, unfolding(crate::specs::Binding::written))]
fn written(alloc: Global, mut terms: Vec<Term>) -> (Term, Items<Term>)
    ensures { result ≡ bound.written terms.items }
{
    if terms.is_empty() {
        (nothing(alloc), Items::new(alloc))
    } else {
        let value = terms.remove(0);
        (value, Items::from_vec(terms))
    }
}

/// A statement with the next number, and those in it with the numbers behind it.
///
/// The test of a `WHILE` is bound last, so that no bare term waits for what can fail.
#[cycle(statements)]
fn statement_of(
    alloc: Global,
    words: &WordTable,
    line: &Line,
    next: &mut u32,
) -> Result<Statement, AllocError>
    ensures bound { IfOk result (λ statement. statement ≡ (statement_of words.now line.now next.old).0) }
    ensures left { OnOk result (next.new ≡ (statement_of words.now line.now next.old).1) }
{
    let number = take_number(next)?;
    match line {
        Line::Assign(word, given) => {
            let place = number_of(words, word.as_slice());
            let given = term_of(alloc, words, given)?;
            Ok(Statement::Assign(number, place, given))
        }
        Line::Put(arguments) => {
            let terms = terms_of(alloc, words, arguments.as_slice())?;
            let (value, names) = written(alloc, terms);
            Ok(Statement::Put(number, value, names))
        }
        Line::Increment(arguments) => {
            let terms = terms_of(alloc, words, arguments.as_slice())?;
            let (value, names) = written(alloc, terms);
            Ok(Statement::Increment(number, value, names))
        }
        Line::ZeroOut(arguments) => {
            let names = terms_of(alloc, words, arguments.as_slice())?;
            Ok(Statement::ZeroOut(number, Items::from_vec(names)))
        }
        Line::Skip => Ok(Statement::Skip(number)),
        Line::Break => Ok(Statement::Break(number)),
        Line::Error => Ok(Statement::Error(number)),
        Line::If(arms) => {
            let cases = cases_of(alloc, words, arms.as_slice(), next)?;
            Ok(Statement::If(number, cases))
        }
        Line::While(test, lines) => {
            let statements = statements_of(alloc, words, lines.as_slice(), next)?;
            let test = term_of(alloc, words, test)?;
            Ok(Statement::While(number, test, statements))
        }
    }
}

/// Statements, one behind the other.
#[cycle(statements)]
pub(crate) fn statements_of(
    alloc: Global,
    words: &WordTable,
    lines: &[Line],
    next: &mut u32,
) -> Result<Items<Statement>, AllocError>
    ensures bound { IfOk result (λ statements. statements
        ≡ (in_order (map (statement_of words.now) lines.now) next.old).0) }
    ensures left { OnOk result (next.new ≡ (in_order (map (statement_of words.now) lines.now) next.old).1) }
{
    let mut statements = Vec::new(alloc);
    'each: for line in lines {
        let statement = statement_of(alloc, words, line, next)?;
        statements.push(statement)?;
    }
    Ok(Items::from_vec(statements))
}

/// A block of an `IF`. Its test is bound last, as that of a `WHILE`.
#[cycle(statements)]
fn case_of(alloc: Global, words: &WordTable, arm: &Arm, next: &mut u32) -> Result<Case, AllocError>
    ensures bound { IfOk result (λ case. case ≡ (case_of words.now arm.now next.old).0) }
    ensures left { OnOk result (next.new ≡ (case_of words.now arm.now next.old).1) }
{
    match arm {
        Arm::When(test, lines) => {
            let statements = statements_of(alloc, words, lines.as_slice(), next)?;
            let test = term_of(alloc, words, test)?;
            Ok(Case::When(test, statements))
        }
        Arm::Otherwise(lines) => {
            let statements = statements_of(alloc, words, lines.as_slice(), next)?;
            Ok(Case::Otherwise(statements))
        }
    }
}

/// The blocks of an `IF`, one behind the other.
#[cycle(statements)]
fn cases_of(
    alloc: Global,
    words: &WordTable,
    arms: &[Arm],
    next: &mut u32,
) -> Result<Items<Case>, AllocError>
    ensures bound { IfOk result (λ cases. cases ≡ (in_order (map (case_of words.now) arms.now) next.old).0) }
    ensures left { OnOk result (next.new ≡ (in_order (map (case_of words.now) arms.now) next.old).1) }
{
    let mut cases = Vec::new(alloc);
    'each: for arm in arms {
        let case = case_of(alloc, words, arm, next)?;
        cases.push(case)?;
    }
    Ok(Items::from_vec(cases))
}
