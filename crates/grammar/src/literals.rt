ghost use Rattle.std.specs.Prelude.{◌≡◌, ◌<◌, length, OnOk};
ghost use Rattle.std.specs.Str.{is_utf8};
ghost use Rattle.grammar.specs.Reading.{take_one};
ghost use Rattle.grammar.specs.Cursor.{Reads};
ghost use Rattle.grammar.specs.Tokens as tokens;

use crate::cursor::{Cursor, Scan};
use crate::stop::Stop;
use cube_fixed::{Money, read};
use cube_lex::{Kind, unquoted};
use std::alloc::Global;

/// Takes a number, as `12.5`. Decimals past the sixth are rounded. One out of range doesn't fit.
pub fn money<C, S: Scan<C>>(cursor: &mut Cursor<'_, S>) -> Result<Money, Stop<C>>
    ensures read { Reads (λ number. number) (take_one S.scanned tokens.money) cursor.old result cursor.new }
    ensures shorter { OnOk result (length cursor.new.tokens < length cursor.old.tokens) }
{
    let Some(token) = cursor.peek() else {
        return Err(cursor.unexpected());
    };
    match token.kind {
        Kind::Number => match read(token.piece) {
            Ok(number) => {
                cursor.advance()?;
                Ok(number)
            }
            Err(_) => Err(cursor.unexpected()),
        },
        _ => Err(cursor.unexpected()),
    }
}

fn is_utf8(bytes: &[u8]) -> bool
    ensures { result ≡ is_utf8 bytes.now }
{
    match str::from_utf8(bytes) {
        Ok(_) => true,
        Err(_) => false,
    }
}

// Whether the bytes may name a file.
fn is_file(bytes: &[u8]) -> bool
    ensures { result ≡ tokens.is_file bytes.now }
{
    !bytes.is_empty() && is_utf8(bytes)
}

/// Takes a quoted text that names a file, which is UTF-8 and not empty.
pub fn file<C, S: Scan<C>>(alloc: Global, cursor: &mut Cursor<'_, S>) -> Result<Vec<u8>, Stop<C>>
    ensures read { Reads (λ bytes. bytes.items) (take_one S.scanned tokens.file) cursor.old result cursor.new }
    ensures shorter { OnOk result (length cursor.new.tokens < length cursor.old.tokens) }
{
    let Some(token) = cursor.peek() else {
        return Err(cursor.unexpected());
    };
    match token.kind {
        Kind::Text => {
            let bytes = unquoted(alloc, token.piece)?;
            if is_file(&bytes) {
                cursor.advance()?;
                Ok(bytes)
            } else {
                Err(cursor.unexpected())
            }
        }
        _ => Err(cursor.unexpected()),
    }
}
