ghost use Rattle.std.specs.Prelude.{[], ◌∷◌, ◌≡◌};
ghost use Rattle.cube_lex.specs.Lexeme.{lexeme_of};
ghost use Rattle.expression_grammar.specs.Language.{operator};
ghost use Rattle.rule_tree.specs.Formula as formula;

use crate::primary::primary_at;
use cube_lex::Token;
use expression_grammar::{Inner, Language, Level};
use grammar::{Cursor, Stop, is_sign};
use rule_tree::{Counted, Excess, Tree, TreeOp};
use sqlite_items::Boxed;
use std::alloc::{AllocError, Global};

/// The formulas of rules, as a language of expressions.
#[derive(Clone, Copy)]
pub struct Formulas;

// The comparison that a token is, if it is one.
fn relation_of(token: &Token<'_>) -> Option<TreeOp>
    ensures { result ≡ operator formula.relations (lexeme_of token.now) }
{
    if is_sign(token, b"=") {
        Some(TreeOp::Equal)
    } else if is_sign(token, b"<>") {
        Some(TreeOp::Unequal)
    } else if is_sign(token, b"<") {
        Some(TreeOp::Less)
    } else if is_sign(token, b">") {
        Some(TreeOp::Greater)
    } else if is_sign(token, b"<=") {
        Some(TreeOp::AtMost)
    } else if is_sign(token, b">=") {
        Some(TreeOp::AtLeast)
    } else if is_sign(token, b"@=") {
        Some(TreeOp::Same)
    } else if is_sign(token, b"@<>") {
        Some(TreeOp::Other)
    } else {
        None
    }
}

// The sum or difference that a token is, if it is one.
fn sum_of(token: &Token<'_>) -> Option<TreeOp>
    ensures { result ≡ operator formula.sums (lexeme_of token.now) }
{
    if is_sign(token, b"+") {
        Some(TreeOp::Add)
    } else if is_sign(token, b"-") {
        Some(TreeOp::Sub)
    } else {
        None
    }
}

// The product or quotient that a token is, if it is one.
fn product_of(token: &Token<'_>) -> Option<TreeOp>
    ensures { result ≡ operator formula.products (lexeme_of token.now) }
{
    if is_sign(token, b"*") {
        Some(TreeOp::Mul)
    } else if is_sign(token, b"/") {
        Some(TreeOp::Div)
    } else if is_sign(token, b"\\") {
        Some(TreeOp::DivSafe)
    } else {
        None
    }
}

// The one operator of a level, if the token is its sign.
fn only(token: &Token<'_>, sign: &[u8], op: TreeOp) -> Option<TreeOp>
    ensures { result ≡ operator ((sign.now, op) ∷ []) (lexeme_of token.now) }
{
    if is_sign(token, sign) { Some(op) } else { None }
}

impl Language<Excess, Counted> for Formulas {
    ghost use Rattle.rule_tree.specs.Formula.{rules_language};
    ghost use Rattle.rule_reader.specs.Readers.Reading as reading;

    type Tree = Tree;

    type Op = TreeOp;

    ghost language = { rules_language };

    ghost read_primary = { reading.read_primary };

    fn operator_of(level: Level, token: &Token<'_>) -> Option<TreeOp> {
        match level {
            Level::Or => only(token, b"%", TreeOp::Or),
            Level::And => only(token, b"&", TreeOp::And),
            Level::Relation => relation_of(token),
            Level::Sum => sum_of(token),
            Level::Product => product_of(token),
        }
    }

    fn joined(alloc: Global, op: TreeOp, left: Tree, right: Tree) -> Result<Tree, AllocError> {
        let left = Boxed::new(alloc, left)?;
        let right = Boxed::new(alloc, right)?;
        Ok(Tree::Binary(op, left, right))
    }

    fn negated(alloc: Global, tree: Tree) -> Result<Tree, AllocError> {
        let tree = Boxed::new(alloc, tree)?;
        Ok(Tree::Minus(tree))
    }

    fn opposite(alloc: Global, tree: Tree) -> Result<Tree, AllocError> {
        let tree = Boxed::new(alloc, tree)?;
        Ok(Tree::Not(tree))
    }

    fn primary<I: Inner<Tree, Excess, Counted>>(
        alloc: Global,
        cursor: &mut Cursor<'_, Counted>,
        inner: &I,
    ) -> Result<Tree, Stop<Excess>> {
        primary_at(alloc, cursor, inner)
    }
}
