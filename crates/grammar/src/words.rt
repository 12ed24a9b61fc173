ghost use Rattle.std.specs.Prelude.{◌≡◌, ◌<◌, length, OnOk};
ghost use Rattle.grammar.specs.Reading.{take_one};
ghost use Rattle.grammar.specs.Cursor.{Reads};
ghost use Rattle.grammar.specs.Tokens as tokens;

use crate::cursor::{Cursor, Scan};
use crate::stop::Stop;
use cube_lex::Kind;
use std::alloc::Global;

/// Takes any word, and gives its bytes as they are written.
pub fn any_word<C, S: Scan<C>>(
    alloc: Global,
    cursor: &mut Cursor<'_, S>,
) -> Result<Vec<u8>, Stop<C>>
    ensures read { Reads (λ bytes. bytes.items) (take_one S.scanned tokens.any_word) cursor.old result cursor.new }
    ensures shorter { OnOk result (length cursor.new.tokens < length cursor.old.tokens) }
{
    let Some(token) = cursor.peek() else {
        return Err(cursor.unexpected());
    };
    match token.kind {
        Kind::Word => {
            let bytes = Vec::from_slice(alloc, token.piece)?;
            cursor.advance()?;
            Ok(bytes)
        }
        _ => Err(cursor.unexpected()),
    }
}

/// Takes any word, and gives its bytes with `a` to `z` as `A` to `Z`.
pub fn capital_word<C, S: Scan<C>>(
    alloc: Global,
    cursor: &mut Cursor<'_, S>,
) -> Result<Vec<u8>, Stop<C>>
    ensures read { Reads (λ bytes. bytes.items) (take_one S.scanned tokens.capital_word) cursor.old result cursor.new }
    ensures shorter { OnOk result (length cursor.new.tokens < length cursor.old.tokens) }
{
    let Some(token) = cursor.peek() else {
        return Err(cursor.unexpected());
    };
    match token.kind {
        Kind::Word => {
            let bytes = token.piece.to_ascii_uppercase(alloc)?;
            cursor.advance()?;
            Ok(bytes)
        }
        _ => Err(cursor.unexpected()),
    }
}
