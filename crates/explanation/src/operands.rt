ghost use Rattle.std.specs.Prelude.{◌≡◌, ◌+◌, ◌≤◌, [], slice_index_or};
ghost use Rattle.cube_lex.specs.Lexeme.{lexeme_of};
ghost use Rattle.explanation.specs.Operands as operands;

use crate::statements::{behind, is_called, word_comes};
use cube_lex::{Kind, Token, TokensLeft};
use grammar::{is_sign, is_word};

/// Where one is in a formula.
#[derive(Clone, Copy)]
pub(crate) struct Within {
    /// Whether the token before is `!`.
    pub named: bool,
    /// How many signs that hold an operand's own tokens are open. A function counts with its word, and its parentheses
    /// are one more.
    pub depth: usize,
}

// Whether a function of the cell's own elements comes: it is one operand, whatever its arguments are.
fn is_own_function(token: &Token<'_>, next: &TokensLeft<'_>) -> bool
    ensures { result ≡ operands.is_own_function (lexeme_of token.now) next.now }
{
    is_called(b"DIMIX", token, next)
        || is_called(b"ELLEV", token, next)
        || is_called(b"ELISPAR", token, next)
        || is_called(b"ELISANC", token, next)
        || is_called(b"ELISCOMP", token, next)
        || is_called(b"ATTRN", token, next)
        || is_called(b"ELCOMPN", token, next)
        || is_called(b"ELPARN", token, next)
}

// The same of a cell, of a dimension's size and of a text.
fn is_operand_function(token: &Token<'_>, next: &TokensLeft<'_>) -> bool
    ensures { result ≡ operands.is_operand_function (lexeme_of token.now) next.now }
{
    is_called(b"DB", token, next)
        || is_called(b"DIMSIZ", token, next)
        || is_called(b"DTYPE", token, next)
        || is_called(b"ATTRS", token, next)
        || is_own_function(token, next)
}

// Whether this is a token with which an operand begins.
fn is_operand(token: &Token<'_>, next: &TokensLeft<'_>) -> bool
    ensures { result ≡ operands.is_operand (lexeme_of token.now) next.now }
{
    match token.kind {
        Kind::Number | Kind::Text => true,
        Kind::Sign => is_sign(token, b"[") || is_sign(token, b"!"),
        Kind::Word => is_word(token, b"STET") || is_operand_function(token, next),
    }
}

fn opened(depth: usize, token: &Token<'_>, next: &TokensLeft<'_>) -> usize
    requires { depth + 1 ≤ usize.MAX }
    ensures opened { result ≡ operands.opened depth (lexeme_of token.now) next.now }
    ensures few { result ≤ depth + 1 }
{
    if depth == 0 {
        if is_sign(token, b"[") || is_operand_function(token, next) {
            1
        } else {
            0
        }
    } else if is_sign(token, b"(") {
        depth + 1
    } else if is_sign(token, b")") || is_sign(token, b"]") {
        if depth <= 2 { 0 } else { depth - 1 }
    } else {
        depth
    }
}

fn begins_operand(within: Within, token: &Token<'_>, next: &TokensLeft<'_>) -> bool
    ensures { result ≡ operands.begins_operand within (lexeme_of token.now) next.now }
{
    !within.named && within.depth == 0 && is_operand(token, next)
}

// Behind one more token.
fn passed(within: Within, token: &Token<'_>, next: &TokensLeft<'_>) -> Within
    requires { within.depth + 1 ≤ usize.MAX }
    ensures passed { result ≡ operands.passed within (lexeme_of token.now) next.now }
    ensures few { result.depth ≤ within.depth + 1 }
{
    Within {
        named: is_sign(token, b"!"),
        depth: opened(within.depth, token, next),
    }
}

// The tokens from the operand on before which so many others stand.
fn operand_behind<'a>(others: u32, tokens: TokensLeft<'a>) -> TokensLeft<'a>
    ensures { result ≡ slice_index_or (operands.operands operands.outside tokens.entry) others [] }
{
    let count = tokens.len();
    let mut within = Within {
        named: false,
        depth: 0,
    };
    let mut before = others;
    let mut left = tokens;
    'token: while let Some(token) = left.first() {
        let here = left.again();
        left.advance();
        let further = passed(within, &token, &left);
        if !begins_operand(within, &token, &left) {
            within = further;
            continue;
        }
        if before == 0 {
            return here;
        }
        before -= 1;
        within = further;
    }
    left
}

// The tokens of a formula behind this mark, where it stands there.
fn behind_mark<'a>(mark: &[u8], tokens: TokensLeft<'a>) -> TokensLeft<'a>
    ensures { result ≡ operands.behind_mark mark.now tokens.entry }
{
    if word_comes(&tokens, mark) {
        behind(b":", tokens)
    } else {
        tokens
    }
}

// The part for leaf cells, or the whole formula.
fn leaf_part<'a>(tokens: TokensLeft<'a>) -> TokensLeft<'a>
    ensures { result ≡ operands.leaf_part tokens.entry }
{
    let left = if word_comes(&tokens, b"C") {
        behind(b";", tokens)
    } else {
        tokens
    };
    behind_mark(b"N", left)
}

/// The tokens from the operand of this number on, from 1, of the statement that begins these tokens.
pub(crate) fn operand_tokens<'a>(number: u32, tokens: TokensLeft<'a>) -> TokensLeft<'a>
    ensures { result ≡ operands.operand_tokens number tokens.entry }
{
    operand_behind(number.saturating_sub(1), leaf_part(behind(b"=", tokens)))
}
