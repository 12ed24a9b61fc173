ghost use Rattle.std.specs.Prelude.{◌≡◌};
ghost use Rattle.grammar.specs.Cursor.{Reads};
ghost use Rattle.expression_grammar.specs.Readers.Reading as reading;

use crate::language::{Inner, Language};
use crate::level::Level;
use crate::operation::{Operand, level_at, operator_at, operator_comes};
use crate::sort::{Sort, Want};
use grammar::{Cursor, Scan, Stop, sign, sign_comes};
use std::alloc::Global;

/// `[ - ] ( primary | "(" expression ")" )`
struct Signed;

/// Products and quotients of these.
struct Product;

/// `[ ~ ]` and a comparison, or a sum.
struct Negation;

/// What `&` joins.
struct Conjunction;

// What may stand in parentheses.
fn inside_parentheses(want: Want) -> Want
    ensures { result ≡ reading.inside_parentheses want }
{
    match want {
        Want::Value => Want::Value,
        Want::Truth | Want::Any => Want::Any,
    }
}

// Whether a truth may stand.
fn may_be_truth(want: Want) -> bool
    ensures { result ≡ reading.may_be_truth want }
{
    match want {
        Want::Value => false,
        Want::Truth | Want::Any => true,
    }
}

// Reads `( expression )`, or another primary.
#[tactic(auto, unfolding(crate::specs::Readers::Reading::read_primary))]
fn primary_at<L: Language<C, S>, C, S: Scan<C>, I: Inner<L::Tree, C, S>>(
    alloc: Global,
    cursor: &mut Cursor<'_, S>,
    want: Want,
    inner: &I,
) -> Result<(L::Tree, Sort), Stop<C>>
    requires { I.may_read inner.now }
    ensures { Reads (λ read. read) (reading.read_primary S.scanned L.read_primary (I.reads inner.now) want) cursor.old
        result cursor.new }
{
    if sign_comes(cursor, b"(") {
        sign(cursor, b"(")?;
        let read = inner.at(alloc, cursor, inside_parentheses(want))?;
        sign(cursor, b")")?;
        Ok(read)
    } else {
        let tree = L::primary(alloc, cursor, inner)?;
        Ok((tree, Sort::Value))
    }
}

impl<L: Language<C, S>, C, S: Scan<C>> Operand<L, C, S> for Signed {
    ghost use Rattle.expression_grammar.specs.Readers.Reading.{read_signed};

    ghost operand = { λ inner. read_signed S.scanned L.language L.read_primary inner };

    #[tactic(auto, unfolding(crate::specs::Readers::Reading::read_signed))]
    fn at<I: Inner<L::Tree, C, S>>(
        alloc: Global,
        cursor: &mut Cursor<'_, S>,
        want: Want,
        inner: &I,
    ) -> Result<(L::Tree, Sort), Stop<C>> {
        if sign_comes(cursor, b"-") {
            sign(cursor, b"-")?;
            let (tree, _) = primary_at::<L, C, S, I>(alloc, cursor, Want::Value, inner)?;
            let tree = L::negated(alloc, tree)?;
            Ok((tree, Sort::Value))
        } else {
            primary_at::<L, C, S, I>(alloc, cursor, want, inner)
        }
    }
}

impl<L: Language<C, S>, C, S: Scan<C>> Operand<L, C, S> for Product {
    ghost use Rattle.expression_grammar.specs.Readers.Reading.{read_product};

    ghost operand = { λ inner. read_product S.scanned L.language L.read_primary inner };

    fn at<I: Inner<L::Tree, C, S>>(
        alloc: Global,
        cursor: &mut Cursor<'_, S>,
        want: Want,
        inner: &I,
    ) -> Result<(L::Tree, Sort), Stop<C>> {
        level_at::<L, C, S, Signed, I>(alloc, cursor, Level::Product, want, inner)
    }
}

// Reads sums and differences of products.
fn sum_at<L: Language<C, S>, C, S: Scan<C>, I: Inner<L::Tree, C, S>>(
    alloc: Global,
    cursor: &mut Cursor<'_, S>,
    want: Want,
    inner: &I,
) -> Result<(L::Tree, Sort), Stop<C>>
    requires { I.may_read inner.now }
    ensures { Reads (λ read. read) (reading.read_sum S.scanned L.language L.read_primary (I.reads inner.now) want)
        cursor.old result cursor.new }
{
    level_at::<L, C, S, Product, I>(alloc, cursor, Level::Sum, want, inner)
}

// Reads a comparison's operator and right side, behind its left side.
#[tactic(auto, unfolding(crate::specs::Readers::Reading::read_compared))]
fn compared_at<L: Language<C, S>, C, S: Scan<C>, I: Inner<L::Tree, C, S>>(
    alloc: Global,
    cursor: &mut Cursor<'_, S>,
    left: L::Tree,
    inner: &I,
) -> Result<(L::Tree, Sort), Stop<C>>
    requires { I.may_read inner.now }
    ensures { Reads (λ read. read) (reading.read_compared S.scanned L.language L.read_primary (I.reads inner.now) left)
        cursor.old result cursor.new }
{
    let op = operator_at::<L, C, S>(cursor, Level::Relation)?;
    let (right, _) = sum_at::<L, C, S, I>(alloc, cursor, Want::Value, inner)?;
    let tree = L::joined(alloc, op, left, right)?;
    Ok((tree, Sort::Truth))
}

// Reads what stands behind what may be the left side of a comparison.
#[tactic(auto, unfolding(crate::specs::Readers::Reading::behind_left))]
fn behind_left<L: Language<C, S>, C, S: Scan<C>, I: Inner<L::Tree, C, S>>(
    alloc: Global,
    cursor: &mut Cursor<'_, S>,
    want: Want,
    head: (L::Tree, Sort),
    inner: &I,
) -> Result<(L::Tree, Sort), Stop<C>>
    requires { I.may_read inner.now }
    ensures { Reads (λ read. read)
        (reading.behind_left S.scanned L.language L.read_primary (I.reads inner.now) want head) cursor.old result
        cursor.new }
{
    match (head.1, want) {
        (Sort::Truth, _) | (Sort::Value, Want::Value) => Ok(head),
        (Sort::Value, Want::Truth) => compared_at::<L, C, S, I>(alloc, cursor, head.0, inner),
        (Sort::Value, Want::Any) => {
            if operator_comes::<L, C, S>(cursor, Level::Relation) {
                compared_at::<L, C, S, I>(alloc, cursor, head.0, inner)
            } else {
                Ok(head)
            }
        }
    }
}

// Reads a comparison, or a sum.
#[tactic(auto, unfolding(crate::specs::Readers::Reading::read_compare))]
fn compare_at<L: Language<C, S>, C, S: Scan<C>, I: Inner<L::Tree, C, S>>(
    alloc: Global,
    cursor: &mut Cursor<'_, S>,
    want: Want,
    inner: &I,
) -> Result<(L::Tree, Sort), Stop<C>>
    requires { I.may_read inner.now }
    ensures { Reads (λ read. read) (reading.read_compare S.scanned L.language L.read_primary (I.reads inner.now) want)
        cursor.old result cursor.new }
{
    let head = sum_at::<L, C, S, I>(alloc, cursor, want, inner)?;
    behind_left::<L, C, S, I>(alloc, cursor, want, head, inner)
}

// Reads `~` and what it turns.
#[tactic(auto, unfolding(crate::specs::Readers::Reading::read_opposite))]
fn opposite_at<L: Language<C, S>, C, S: Scan<C>, I: Inner<L::Tree, C, S>>(
    alloc: Global,
    cursor: &mut Cursor<'_, S>,
    inner: &I,
) -> Result<(L::Tree, Sort), Stop<C>>
    requires { I.may_read inner.now }
    ensures { Reads (λ read. read) (reading.read_opposite S.scanned L.language L.read_primary (I.reads inner.now))
        cursor.old result cursor.new }
{
    sign(cursor, b"~")?;
    let (tree, _) = compare_at::<L, C, S, I>(alloc, cursor, Want::Truth, inner)?;
    let tree = L::opposite(alloc, tree)?;
    Ok((tree, Sort::Truth))
}

impl<L: Language<C, S>, C, S: Scan<C>> Operand<L, C, S> for Negation {
    ghost use Rattle.expression_grammar.specs.Readers.Reading.{read_not};

    ghost operand = { λ inner. read_not S.scanned L.language L.read_primary inner };

    #[tactic(auto, unfolding(crate::specs::Readers::Reading::read_not))]
    fn at<I: Inner<L::Tree, C, S>>(
        alloc: Global,
        cursor: &mut Cursor<'_, S>,
        want: Want,
        inner: &I,
    ) -> Result<(L::Tree, Sort), Stop<C>> {
        if may_be_truth(want) && sign_comes(cursor, b"~") {
            opposite_at::<L, C, S, I>(alloc, cursor, inner)
        } else {
            compare_at::<L, C, S, I>(alloc, cursor, want, inner)
        }
    }
}

impl<L: Language<C, S>, C, S: Scan<C>> Operand<L, C, S> for Conjunction {
    ghost use Rattle.expression_grammar.specs.Readers.Reading.{read_and};

    ghost operand = { λ inner. read_and S.scanned L.language L.read_primary inner };

    fn at<I: Inner<L::Tree, C, S>>(
        alloc: Global,
        cursor: &mut Cursor<'_, S>,
        want: Want,
        inner: &I,
    ) -> Result<(L::Tree, Sort), Stop<C>> {
        level_at::<L, C, S, Negation, I>(alloc, cursor, Level::And, want, inner)
    }
}

/// Reads an expression as wanted, by what reads those inside it, and gives its sort with it.
pub fn expression_at<L: Language<C, S>, C, S: Scan<C>, I: Inner<L::Tree, C, S>>(
    alloc: Global,
    cursor: &mut Cursor<'_, S>,
    want: Want,
    inner: &I,
) -> Result<(L::Tree, Sort), Stop<C>>
    requires { I.may_read inner.now }
    ensures { Reads (λ read. read) (reading.read_or S.scanned L.language L.read_primary (I.reads inner.now) want)
        cursor.old result cursor.new }
{
    level_at::<L, C, S, Conjunction, I>(alloc, cursor, Level::Or, want, inner)
}
