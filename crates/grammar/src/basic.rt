ghost use Rattle.std.specs.Prelude.{◌≡◌, ◌<◌, ◌≤◌, length, OnOk};
ghost use Rattle.std.specs.Str.{bytes_eq, str_eq_ignore_ascii_case};
ghost use Rattle.cube_lex.specs.Lexeme.{lexeme_of};
ghost use Rattle.grammar.specs.Reading.{starts, take_one, finish};
ghost use Rattle.grammar.specs.Cursor.{Reads};
ghost use Rattle.grammar.specs.Lists.{read_minus};
ghost use Rattle.grammar.specs.Tokens.{is_sign, is_word};
ghost use Rattle.grammar.specs.Tokens as tokens;

use crate::cursor::{Cursor, Scan};
use crate::stop::Stop;
use cube_lex::{Kind, Position, Token};

/// Whether the token is this sign.
pub fn is_sign(token: &Token<'_>, sign: &[u8]) -> bool
    ensures { result ≡ tokens.is_sign sign.now (lexeme_of token.now) }
{
    match token.kind {
        Kind::Sign => token.piece == sign,
        _ => false,
    }
}

/// Whether the token is this word. The case of letters doesn't count.
pub fn is_word(token: &Token<'_>, word: &[u8]) -> bool
    ensures { result ≡ tokens.is_word word.now (lexeme_of token.now) }
{
    match token.kind {
        Kind::Word => token.piece.eq_ignore_ascii_case(word),
        _ => false,
    }
}

/// Whether this sign comes next.
pub fn sign_comes<S>(cursor: &Cursor<'_, S>, sign: &[u8]) -> bool
    ensures { result ≡ starts (tokens.is_sign sign.now) cursor.now.tokens }
{
    match cursor.peek() {
        Some(token) => is_sign(&token, sign),
        None => false,
    }
}

/// Whether this word comes next.
pub fn word_comes<S>(cursor: &Cursor<'_, S>, word: &[u8]) -> bool
    ensures { result ≡ starts (tokens.is_word word.now) cursor.now.tokens }
{
    match cursor.peek() {
        Some(token) => is_word(&token, word),
        None => false,
    }
}

/// Whether a word comes next.
pub fn any_word_comes<S>(cursor: &Cursor<'_, S>) -> bool
    ensures { result ≡ starts tokens.is_any_word cursor.now.tokens }
{
    match cursor.peek() {
        Some(token) => match token.kind {
            Kind::Word => true,
            _ => false,
        },
        None => false,
    }
}

/// Whether a number comes next.
pub fn number_comes<S>(cursor: &Cursor<'_, S>) -> bool
    ensures { result ≡ starts tokens.is_number cursor.now.tokens }
{
    match cursor.peek() {
        Some(token) => match token.kind {
            Kind::Number => true,
            _ => false,
        },
        None => false,
    }
}

/// Whether a quoted text comes next.
pub fn text_comes<S>(cursor: &Cursor<'_, S>) -> bool
    ensures { result ≡ starts tokens.is_text cursor.now.tokens }
{
    match cursor.peek() {
        Some(token) => match token.kind {
            Kind::Text => true,
            _ => false,
        },
        None => false,
    }
}

/// Takes this sign.
pub fn sign<C, S: Scan<C>>(cursor: &mut Cursor<'_, S>, sign: &[u8]) -> Result<(), Stop<C>>
    ensures read { Reads (λ _. tt) (take_one S.scanned (tokens.sign sign.now)) cursor.old result cursor.new }
    ensures shorter { OnOk result (length cursor.new.tokens < length cursor.old.tokens) }
{
    if sign_comes(cursor, sign) {
        cursor.advance()
    } else {
        Err(cursor.unexpected())
    }
}

/// Takes a `-`, if one comes next, and gives whether one did.
#[tactic(auto, unfolding(crate::specs::Lists::read_minus))]
pub fn minus<C, S: Scan<C>>(cursor: &mut Cursor<'_, S>) -> Result<bool, Stop<C>>
    ensures read { Reads (λ negative. negative) (read_minus S.scanned) cursor.old result cursor.new }
    ensures no_longer { OnOk result (length cursor.new.tokens ≤ length cursor.old.tokens) }
{
    if sign_comes(cursor, b"-") {
        sign(cursor, b"-")?;
        Ok(true)
    } else {
        Ok(false)
    }
}

/// Takes this word, and gives its place.
pub fn word<C, S: Scan<C>>(cursor: &mut Cursor<'_, S>, word: &[u8]) -> Result<Position, Stop<C>>
    ensures read { Reads (λ at. at) (take_one S.scanned (tokens.word word.now)) cursor.old result cursor.new }
    ensures shorter { OnOk result (length cursor.new.tokens < length cursor.old.tokens) }
{
    match cursor.peek() {
        Some(token) if is_word(&token, word) => {
            cursor.advance()?;
            Ok(token.position())
        }
        _ => Err(cursor.unexpected()),
    }
}

/// Takes the end of the text.
pub fn end<C, S: Scan<C>>(cursor: &mut Cursor<'_, S>) -> Result<(), Stop<C>>
    ensures { Reads (λ _. tt) finish cursor.old result cursor.new }
{
    if cursor.tokens.is_empty() {
        Ok(())
    } else {
        Err(cursor.unexpected())
    }
}
