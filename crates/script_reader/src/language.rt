ghost use Rattle.std.specs.Prelude.{[], ◌∷◌, ◌≡◌};
ghost use Rattle.cube_lex.specs.Lexeme.{lexeme_of};
ghost use Rattle.expression_grammar.specs.Language.{operator};
ghost use Rattle.script_tree.specs.Expression as expression;

use crate::primary::primary_at;
use cube_lex::Token;
use expression_grammar::{Inner, Language, Level};
use grammar::{Cursor, Stop, is_sign};
use script_tree::{Counted, Excess, Expr, ScriptOp};
use sqlite_items::Boxed;
use std::alloc::{AllocError, Global};

/// The expressions of load scripts, as a language of expressions.
#[derive(Clone, Copy)]
pub struct Expressions;

// The comparison that a token is, if it is one.
fn relation_of(token: &Token<'_>) -> Option<ScriptOp>
    ensures { result ≡ operator expression.relations (lexeme_of token.now) }
{
    if is_sign(token, b"=") {
        Some(ScriptOp::Equal)
    } else if is_sign(token, b"<>") {
        Some(ScriptOp::Unequal)
    } else if is_sign(token, b"<") {
        Some(ScriptOp::Less)
    } else if is_sign(token, b">") {
        Some(ScriptOp::Greater)
    } else if is_sign(token, b"<=") {
        Some(ScriptOp::AtMost)
    } else if is_sign(token, b">=") {
        Some(ScriptOp::AtLeast)
    } else if is_sign(token, b"@=") {
        Some(ScriptOp::SameText)
    } else if is_sign(token, b"@<>") {
        Some(ScriptOp::OtherText)
    } else {
        None
    }
}

// The sum, difference or joining of texts that a token is, if it is one.
fn sum_of(token: &Token<'_>) -> Option<ScriptOp>
    ensures { result ≡ operator expression.sums (lexeme_of token.now) }
{
    if is_sign(token, b"+") {
        Some(ScriptOp::Add)
    } else if is_sign(token, b"-") {
        Some(ScriptOp::Sub)
    } else if is_sign(token, b"|") {
        Some(ScriptOp::Join)
    } else {
        None
    }
}

// The product or quotient that a token is, if it is one.
fn product_of(token: &Token<'_>) -> Option<ScriptOp>
    ensures { result ≡ operator expression.products (lexeme_of token.now) }
{
    if is_sign(token, b"*") {
        Some(ScriptOp::Mul)
    } else if is_sign(token, b"/") {
        Some(ScriptOp::Div)
    } else if is_sign(token, b"\\") {
        Some(ScriptOp::DivSafe)
    } else {
        None
    }
}

// The one operator of a level, if the token is its sign.
fn only(token: &Token<'_>, sign: &[u8], op: ScriptOp) -> Option<ScriptOp>
    ensures { result ≡ operator ((sign.now, op) ∷ []) (lexeme_of token.now) }
{
    if is_sign(token, sign) { Some(op) } else { None }
}

impl<'a> Language<Excess, Counted<'a>> for Expressions {
    ghost use Rattle.std.specs.Prelude.{◌≡◌, IfOk};
    ghost use Rattle.cube_lex.specs.Lexeme.{lexeme_of};
    ghost use Rattle.expression_grammar.specs.Language.{operator};
    ghost use Rattle.expression_grammar.specs.Levels.{table};
    ghost use Rattle.script_tree.specs.Expression.{scripts_language};
    ghost use Rattle.script_reader.specs.Readers.Reading as reading;

    type Tree = Expr;

    type Op = ScriptOp;

    ghost language = { scripts_language };

    ghost read_primary = { reading.read_primary };

    fn operator_of(level: Level, token: &Token<'_>) -> Option<ScriptOp>
        ensures { result ≡ operator (table scripts_language level) (lexeme_of token.now) }
    {
        match level {
            Level::Or => only(token, b"%", ScriptOp::Or),
            Level::And => only(token, b"&", ScriptOp::And),
            Level::Relation => relation_of(token),
            Level::Sum => sum_of(token),
            Level::Product => product_of(token),
        }
    }

    fn joined(alloc: Global, op: ScriptOp, left: Expr, right: Expr) -> Result<Expr, AllocError>
        ensures { IfOk result (λ made. made ≡ scripts_language.joined op left right) }
    {
        let left = Boxed::new(alloc, left)?;
        let right = Boxed::new(alloc, right)?;
        Ok(Expr::Binary(op, left, right))
    }

    fn negated(alloc: Global, tree: Expr) -> Result<Expr, AllocError>
        ensures { IfOk result (λ made. made ≡ scripts_language.negated tree) }
    {
        let tree = Boxed::new(alloc, tree)?;
        Ok(Expr::Minus(tree))
    }

    fn opposite(alloc: Global, tree: Expr) -> Result<Expr, AllocError>
        ensures { IfOk result (λ made. made ≡ scripts_language.opposite tree) }
    {
        let tree = Boxed::new(alloc, tree)?;
        Ok(Expr::Not(tree))
    }

    fn primary<I: Inner<Expr, Excess, Counted<'a>>>(
        alloc: Global,
        cursor: &mut Cursor<'_, Counted<'a>>,
        inner: &I,
    ) -> Result<Expr, Stop<Excess>> {
        primary_at(alloc, cursor, inner)
    }
}
