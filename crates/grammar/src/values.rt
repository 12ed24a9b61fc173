ghost use Rattle.std.specs.Prelude.{◌≡◌, ◌<◌, nat_lt, length, OnOk, IsTrue, Some, None};
ghost use Rattle.std.specs.Prelude.{if◌then◌else◌, ◌+◌, ◌*◌, min};
ghost use Rattle.std.specs.Char.{is_ascii_digit};
ghost use Rattle.std.specs.List.{list_all};
ghost use Rattle.std.specs.Str.Parse.{digits_value};
ghost use Rattle.cube_lex.specs.Lexeme.{lexeme_of};
ghost use Rattle.grammar.specs.Reading.{take_one};
ghost use Rattle.grammar.specs.Cursor.{Reads};
ghost use Rattle.grammar.specs.Tokens as tokens;

use crate::cursor::{Cursor, Scan};
use crate::stop::Stop;
use cube_lex::{Kind, Token, unquoted};
use dim_name::{Name, NameFault};
use std::alloc::Global;

/// Whole numbers are below this.
const WHOLE_END: u64 = 2_147_483_648;

/// Takes a quoted text, and gives its bytes.
pub fn text<C, S: Scan<C>>(alloc: Global, cursor: &mut Cursor<'_, S>) -> Result<Vec<u8>, Stop<C>>
    ensures read { Reads (λ bytes. bytes.items) (take_one S.scanned tokens.text) cursor.old result cursor.new }
    ensures shorter { OnOk result (length cursor.new.tokens < length cursor.old.tokens) }
{
    let Some(token) = cursor.peek() else {
        return Err(cursor.unexpected());
    };
    match token.kind {
        Kind::Text => {
            let bytes = unquoted(alloc, token.piece)?;
            cursor.advance()?;
            Ok(bytes)
        }
        _ => Err(cursor.unexpected()),
    }
}

/// Takes a quoted text that is a name.
pub fn name<C, S: Scan<C>>(alloc: Global, cursor: &mut Cursor<'_, S>) -> Result<Name, Stop<C>>
    ensures read { Reads (λ name. name) (take_one S.scanned tokens.name) cursor.old result cursor.new }
    ensures shorter { OnOk result (length cursor.new.tokens < length cursor.old.tokens) }
{
    let Some(token) = cursor.peek() else {
        return Err(cursor.unexpected());
    };
    match token.kind {
        Kind::Text => {
            let bytes = unquoted(alloc, token.piece)?;
            match Name::new(alloc, &bytes) {
                Ok(name) => {
                    cursor.advance()?;
                    Ok(name)
                }
                Err(NameFault::NotAName) => Err(cursor.unexpected()),
                Err(NameFault::Memory) => Err(Stop::Memory),
            }
        }
        _ => Err(cursor.unexpected()),
    }
}

// The number that digits write, or the limit where it isn't below that.
fn value_of(digits: &[u8]) -> u64
    requires { IsTrue (list_all is_ascii_digit digits.now) }
    ensures { result ≡ min (digits_value 10 digits.now) tokens.whole_end }
{
    let mut value = 0;
    for digit in digits {
        value = (value * 10 + u64::from(digit - b'0')).min(WHOLE_END);
    }
    value
}

// Whether each byte is a digit.
fn is_digits(piece: &[u8]) -> bool
    ensures { result ≡ list_all is_ascii_digit piece.now }
{
    piece.iter().all(|byte| byte.is_ascii_digit())
}

// The whole number that a piece writes.
#[tactic(auto, using(crate::proofs::Digits::whole_is, crate::proofs::Digits::whole_large))]
fn whole_of(piece: &[u8]) -> Option<u32>
    ensures { result ≡ (if tokens.is_whole piece.now then Some (digits_value 10 piece.now) else None) }
{
    if !is_digits(piece) {
        return None;
    }
    let value = value_of(piece);
    if value < WHOLE_END {
        Some(value as u32)
    } else {
        None
    }
}

/// Takes a whole number, which is below 2^31.
pub fn whole<C, S: Scan<C>>(cursor: &mut Cursor<'_, S>) -> Result<u32, Stop<C>>
    ensures read { Reads (λ n. n) (take_one S.scanned tokens.whole) cursor.old result cursor.new }
    ensures shorter { OnOk result (length cursor.new.tokens < length cursor.old.tokens) }
{
    let Some(token) = cursor.peek() else {
        return Err(cursor.unexpected());
    };
    match token.kind {
        Kind::Number => match whole_of(token.piece) {
            Some(value) => {
                cursor.advance()?;
                Ok(value)
            }
            None => Err(cursor.unexpected()),
        },
        _ => Err(cursor.unexpected()),
    }
}
