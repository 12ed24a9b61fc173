ghost use Rattle.std.specs.Prelude.{◌≡◌, ◌+◌, length, take};
ghost use Rattle.std.specs.Option.{option_map};
ghost use Rattle.cube_lex.specs.Lexeme.{lexeme_of};
ghost use Rattle.explanation.specs.Written as written;

use crate::places::{from, up_to};
use crate::statements::sign_comes;
use cube_lex::{Token, TokensLeft};
use grammar::is_sign;

fn opens(token: &Token<'_>) -> bool
    ensures { result ≡ written.opens (lexeme_of token.now) }
{
    is_sign(token, b"[") || is_sign(token, b"(")
}

fn closes(token: &Token<'_>) -> bool
    ensures { result ≡ written.closes (lexeme_of token.now) }
{
    is_sign(token, b"]") || is_sign(token, b")")
}

// The sign that closes the first one that is opened.
fn closing<'a>(tokens: TokensLeft<'a>) -> Option<Token<'a>>
    ensures { option_map lexeme_of result ≡ written.closing 0 tokens.entry }
{
    let count = tokens.len();
    let mut depth: usize = 0;
    let mut left = tokens;
    'token: while let Some(token) = left.first() {
        left.advance();
        if opens(&token) {
            depth += 1;
        } else if closes(&token) {
            if depth <= 1 {
                return Some(token);
            }
            depth -= 1;
        }
    }
    None
}

// The last token of the reference or operand that begins these tokens.
fn last_token<'a>(tokens: TokensLeft<'a>) -> Option<Token<'a>>
    ensures { option_map lexeme_of result ≡ written.last_token tokens.entry }
{
    let token = tokens.first()?;
    let mut next = tokens.again();
    next.advance();
    if is_sign(&token, b"[") || sign_comes(&next, b"(") {
        closing(tokens)
    } else if is_sign(&token, b"!") {
        next.first()
    } else {
        Some(token)
    }
}

/// The offset of the first of these tokens, or 0 where there is none.
pub fn begin_of(tokens: &TokensLeft<'_>) -> usize
    ensures { result ≡ written.begin_of tokens.now }
{
    match tokens.first() {
        Some(token) => token.start,
        None => 0,
    }
}

// The bytes of the text up to the end of a token.
fn through<'a>(text: &'a [u8], token: &Token<'_>) -> &'a [u8]
    ensures { result.now ≡ take ((lexeme_of token.now).start + length (lexeme_of token.now).piece) text.now }
{
    up_to(text, token.start.saturating_add(token.piece.len()))
}

// The bytes of the text up to the end of the last token, if there is one.
fn through_last<'a>(text: &'a [u8], last: Option<Token<'_>>) -> &'a [u8]
    ensures { result.now ≡ take (written.end_of (option_map lexeme_of last.entry)) text.now }
{
    match last {
        Some(token) => through(text, &token),
        None => up_to(text, 0),
    }
}

/// The bytes of the reference or operand that begins these tokens.
pub(crate) fn written<'a>(text: &'a [u8], tokens: TokensLeft<'_>) -> &'a [u8]
    ensures { result.now ≡ written.written text.now tokens.entry }
{
    let begin = begin_of(&tokens);
    from(through_last(text, last_token(tokens)), begin)
}
