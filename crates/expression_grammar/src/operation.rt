ghost use Rattle.std.specs.Prelude.{◌≡◌};
ghost use Rattle.cube_lex.specs.Lexeme.{lexeme_of};
ghost use Rattle.grammar.specs.Cursor.{Reads};
ghost use Rattle.grammar.specs.Reading.{starts, take_one};
ghost use Rattle.expression_grammar.specs.Language.{operator, is_operator};
ghost use Rattle.expression_grammar.specs.Levels.{table};
ghost use Rattle.expression_grammar.specs.Readers.Reading.{Sorted, read_operation, read_behind};
ghost use Rattle.expression_grammar.specs.Readers.Reading.{read_behind_sort, read_level, only};
ghost use Rattle.expression_grammar.specs.Levels as levels;
ghost use Rattle.expression_grammar.specs.Readers.Reading as reading;

use crate::language::{Inner, Language};
use crate::level::Level;
use crate::sort::{Sort, Want};
use grammar::{Cursor, Scan, Stop};
use std::alloc::Global;

/// What reads an operand, by what reads the expressions inside it.
pub trait Operand<L: Language<C, S>, C, S: Scan<C>> {
    ghost operand: { Sorted S C L.Tree → Sorted S C L.Tree };

    fn at<I: Inner<L::Tree, C, S>>(
        alloc: Global,
        cursor: &mut Cursor<'_, S>,
        want: Want,
        inner: &I,
    ) -> Result<(L::Tree, Sort), Stop<C>>
        requires { I.may_read inner.now }
        ensures { Reads (λ read. read) (operand (I.reads inner.now) want) cursor.old result cursor.new };
}

/// Whether an operator of this level comes.
#[tactic(auto, using(crate::proofs::OperatorComes::some_operator))]
pub fn operator_comes<L: Language<C, S>, C, S: Scan<C>>(
    cursor: &Cursor<'_, S>,
    level: Level,
) -> bool
    ensures { result ≡ starts (is_operator (table L.language level)) cursor.now.tokens }
{
    match cursor.peek() {
        Some(token) => L::operator_of(level, &token).is_some(),
        None => false,
    }
}

/// Takes an operator of this level.
pub fn operator_at<L: Language<C, S>, C, S: Scan<C>>(
    cursor: &mut Cursor<'_, S>,
    level: Level,
) -> Result<L::Op, Stop<C>>
    ensures { Reads (λ op. op) (take_one S.scanned (operator (table L.language level))) cursor.old result cursor.new }
{
    let Some(token) = cursor.peek() else {
        return Err(cursor.unexpected());
    };
    match L::operator_of(level, &token) {
        Some(op) => {
            cursor.advance()?;
            Ok(op)
        }
        None => Err(cursor.unexpected()),
    }
}

// What the operators of a level join.
fn joins(level: Level) -> Sort
    ensures { result ≡ levels.joins level }
{
    match level {
        Level::Or | Level::And => Sort::Truth,
        Level::Relation | Level::Sum | Level::Product => Sort::Value,
    }
}

// Where this sort alone may stand.
fn only(sort: Sort) -> Want
    ensures { result ≡ reading.only sort }
{
    match sort {
        Sort::Value => Want::Value,
        Sort::Truth => Want::Truth,
    }
}

// Reads an operator of a level, and its right operand.
#[tactic(auto, unfolding(crate::specs::Readers::Reading::read_operation))]
fn operation_at<L: Language<C, S>, C, S: Scan<C>, O: Operand<L, C, S>, I: Inner<L::Tree, C, S>>(
    alloc: Global,
    cursor: &mut Cursor<'_, S>,
    level: Level,
    want: Want,
    inner: &I,
) -> Result<(L::Op, L::Tree), Stop<C>>
    requires { I.may_read inner.now }
    ensures { Reads (λ read. read)
        (read_operation S.scanned (table L.language level) (O.operand (I.reads inner.now) want)) cursor.old result
        cursor.new }
{
    let op = operator_at::<L, C, S>(cursor, level)?;
    let (right, _) = O::at(alloc, cursor, want, inner)?;
    Ok((op, right))
}

// Reads the operations of a level behind an operand, and joins each to the tree so far. Each takes a token, so there
// are no more of them than tokens.
#[tactic(auto, unfolding(crate::specs::Readers::Reading::read_behind))]
fn operations_at<L: Language<C, S>, C, S: Scan<C>, O: Operand<L, C, S>, I: Inner<L::Tree, C, S>>(
    alloc: Global,
    cursor: &mut Cursor<'_, S>,
    level: Level,
    head: (L::Tree, Sort),
    want: Want,
    inner: &I,
) -> Result<(L::Tree, Sort), Stop<C>>
    requires { I.may_read inner.now }
    ensures { Reads (λ read. read) (read_behind S.scanned L.language.joined (table L.language level)
        (O.operand (I.reads inner.now) want) head) cursor.old result cursor.new }
{
    let (mut tree, sort) = head;
    let turns = cursor.tokens.len();
    'operation: for _ in 0..turns {
        if !operator_comes::<L, C, S>(cursor, level) {
            return Ok((tree, sort));
        }
        let (op, right) = operation_at::<L, C, S, O, I>(alloc, cursor, level, want, inner)?;
        tree = L::joined(alloc, op, tree, right)?;
    }
    Ok((tree, sort))
}

// Reads them, if the operand is of the sort that the level joins.
#[tactic(auto, unfolding(crate::specs::Readers::Reading::behind_value, crate::specs::Readers::Reading::behind_truth))]
fn behind<L: Language<C, S>, C, S: Scan<C>, O: Operand<L, C, S>, I: Inner<L::Tree, C, S>>(
    alloc: Global,
    cursor: &mut Cursor<'_, S>,
    level: Level,
    head: (L::Tree, Sort),
    inner: &I,
) -> Result<(L::Tree, Sort), Stop<C>>
    requires { I.may_read inner.now }
    ensures { Reads (λ read. read) (read_behind_sort S.scanned L.language.joined (table L.language level)
        (levels.joins level) (O.operand (I.reads inner.now) (only (levels.joins level))) head) cursor.old result
        cursor.new }
{
    match (joins(level), head.1) {
        (Sort::Value, Sort::Value) | (Sort::Truth, Sort::Truth) => {
            let want = only(joins(level));
            operations_at::<L, C, S, O, I>(alloc, cursor, level, head, want, inner)
        }
        (Sort::Value, Sort::Truth) | (Sort::Truth, Sort::Value) => Ok(head),
    }
}

/// Reads operands, and the operators of a level between those of the sort that it joins.
#[tactic(auto, unfolding(crate::specs::Readers::Reading::read_level))]
pub fn level_at<L: Language<C, S>, C, S: Scan<C>, O: Operand<L, C, S>, I: Inner<L::Tree, C, S>>(
    alloc: Global,
    cursor: &mut Cursor<'_, S>,
    level: Level,
    want: Want,
    inner: &I,
) -> Result<(L::Tree, Sort), Stop<C>>
    requires { I.may_read inner.now }
    ensures { Reads (λ read. read) (read_level S.scanned L.language level (O.operand (I.reads inner.now)) want)
        cursor.old result cursor.new }
{
    let head = O::at(alloc, cursor, want, inner)?;
    behind::<L, C, S, O, I>(alloc, cursor, level, head, inner)
}
