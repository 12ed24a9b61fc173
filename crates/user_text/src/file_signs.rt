ghost use Rattle.std.specs.Prelude.{◌≡◌, IfOk};
ghost use Rattle.cube_lex.specs.Lexeme.{lexeme_of};
ghost use Rattle.grammar.specs.Cursor.{Reads};
ghost use Rattle.grammar.specs.Reading.{take_one};
ghost use Rattle.user_text.specs.Counting.{count};
ghost use Rattle.user_text.specs.FileSigns as file_signs;
ghost use Rattle.user_text.specs.Readers.Reading as reading;

use crate::counted::Counted;
use crate::fault::TooMany;
use cube_fixed::DECIMAL_POINT;
use cube_lex::{Kind, Token, unquoted};
use grammar::{Cursor, Stop, text_comes, word, word_comes};
use std::alloc::{AllocError, Global};

/// Between columns, where a load says nothing else.
pub const COMMA: u8 = b',';

/// What the word TAB means.
const TAB: u8 = b'\t';

/// Whether a file has the byte for something else than these signs.
fn has_other_use(byte: u8) -> bool
    ensures { result ≡ file_signs.has_other_use byte }
{
    byte.is_ascii_digit() || matches!(byte, b'+' | b'-' | b'"' | b'\n' | b'\r')
}

/// The byte, where these bytes are one that may be a sign of a file.
fn sign_in(bytes: &[u8]) -> Option<u8>
    ensures { result ≡ file_signs.sign_in bytes.now }
{
    match bytes {
        [byte] if !has_other_use(*byte) => Some(*byte),
        _ => None,
    }
}

/// The sign of a file that a token is, if it is one.
fn sign_of(alloc: Global, token: &Token<'_>) -> Result<Option<u8>, AllocError>
    ensures { IfOk result (λ byte. byte ≡ file_signs.sign_text (lexeme_of token.now)) }
{
    match token.kind {
        Kind::Text => {
            let bytes = unquoted(alloc, token.piece)?;
            Ok(sign_in(&bytes))
        }
        _ => Ok(None),
    }
}

/// Takes a quoted text that is a sign of a file.
fn sign_text(alloc: Global, cursor: &mut Cursor<'_, Counted>) -> Result<u8, Stop<TooMany>>
    ensures { Reads (λ byte. byte) (take_one count file_signs.sign_text) cursor.old result cursor.new }
{
    let Some(token) = cursor.peek() else {
        return Err(cursor.unexpected());
    };
    match sign_of(alloc, &token)? {
        Some(byte) => {
            cursor.advance()?;
            Ok(byte)
        }
        None => Err(cursor.unexpected()),
    }
}

/// Takes a quoted text that is a sign of a file, other than this one.
fn sign_but(alloc: Global, cursor: &mut Cursor<'_, Counted>, taken: u8) -> Result<u8, Stop<TooMany>>
    ensures { Reads (λ byte. byte) (take_one count (file_signs.sign_but taken)) cursor.old result cursor.new }
{
    let Some(token) = cursor.peek() else {
        return Err(cursor.unexpected());
    };
    match sign_of(alloc, &token)? {
        Some(byte) if byte != taken => {
            cursor.advance()?;
            Ok(byte)
        }
        _ => Err(cursor.unexpected()),
    }
}

/// Reads what stands between columns, behind its word.
#[tactic(auto, unfolding(crate::specs::Readers::Reading::read_given_separator))]
fn given_separator(alloc: Global, cursor: &mut Cursor<'_, Counted>) -> Result<u8, Stop<TooMany>>
    ensures { Reads (λ byte. byte) reading.read_given_separator cursor.old result cursor.new }
{
    if text_comes(cursor) {
        sign_text(alloc, cursor)
    } else {
        word(cursor, b"TAB")?;
        Ok(TAB)
    }
}

/// Reads what stands between columns. Where nothing is said it is a comma.
#[tactic(auto, unfolding(crate::specs::Readers::Reading::read_separator))]
pub fn separator_at(alloc: Global, cursor: &mut Cursor<'_, Counted>) -> Result<u8, Stop<TooMany>>
    ensures { Reads (λ byte. byte) reading.read_separator cursor.old result cursor.new }
{
    if word_comes(cursor, b"SEPARATOR") {
        word(cursor, b"SEPARATOR")?;
        given_separator(alloc, cursor)
    } else {
        Ok(COMMA)
    }
}

/// Reads what stands between units and decimals, with its word. It isn't what stands between columns.
#[tactic(auto, unfolding(crate::specs::Readers::Reading::read_given_decimal))]
fn given_decimal(
    alloc: Global,
    cursor: &mut Cursor<'_, Counted>,
    separator: u8,
) -> Result<u8, Stop<TooMany>>
    ensures { Reads (λ byte. byte) (reading.read_given_decimal separator) cursor.old result cursor.new }
{
    word(cursor, b"DECIMAL")?;
    sign_but(alloc, cursor, separator)
}

/// Reads what stands between units and decimals. Where nothing is said it is a point, and so something has to be said
/// where a point stands between columns.
#[tactic(auto, unfolding(crate::specs::Readers::Reading::read_decimal, crate::specs::Readers::Reading::read_sign_by))]
pub fn decimal_at(
    alloc: Global,
    cursor: &mut Cursor<'_, Counted>,
    separator: u8,
) -> Result<u8, Stop<TooMany>>
    ensures { Reads (λ byte. byte) (reading.read_decimal separator) cursor.old result cursor.new }
{
    if separator == DECIMAL_POINT {
        given_decimal(alloc, cursor, separator)
    } else if word_comes(cursor, b"DECIMAL") {
        given_decimal(alloc, cursor, separator)
    } else {
        Ok(DECIMAL_POINT)
    }
}
