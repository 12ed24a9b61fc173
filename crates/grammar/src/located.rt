ghost use Rattle.std.specs.Prelude.{◌≡◌, ◌<◌, length, OnOk};
ghost use Rattle.grammar.specs.Reading.{take_one};
ghost use Rattle.grammar.specs.Cursor.{Reads};
ghost use Rattle.grammar.specs.Tokens as tokens;
ghost use Rattle.grammar.specs.Tokens.{located};

use crate::cursor::{Cursor, Scan};
use crate::literals::file;
use crate::stop::Stop;
use crate::values::{name, whole};
use cube_lex::Position;
use dim_name::Name;
use lists::ListOf;
use std::alloc::Global;

/// Takes a quoted text that is a name, and gives it with its place.
pub fn located_name<C, S: Scan<C>>(
    alloc: Global,
    cursor: &mut Cursor<'_, S>,
) -> Result<(Position, Name), Stop<C>>
    ensures read { Reads (λ pair. pair) (take_one S.scanned (located tokens.name)) cursor.old result cursor.new }
    ensures shorter { OnOk result (length cursor.new.tokens < length cursor.old.tokens) }
{
    let position = cursor.position();
    let name = name(alloc, cursor)?;
    Ok((position, name))
}

/// Takes a whole number, which is below 2^31, and gives it with its place.
pub fn located_whole<C, S: Scan<C>>(cursor: &mut Cursor<'_, S>) -> Result<(Position, u32), Stop<C>>
    ensures read { Reads (λ pair. pair) (take_one S.scanned (located tokens.whole)) cursor.old result cursor.new }
    ensures shorter { OnOk result (length cursor.new.tokens < length cursor.old.tokens) }
{
    let position = cursor.position();
    let number = whole(cursor)?;
    Ok((position, number))
}

// Takes a quoted text that names a file.
fn file_list<C, S: Scan<C>>(
    alloc: Global,
    cursor: &mut Cursor<'_, S>,
) -> Result<ListOf<u8>, Stop<C>>
    ensures read { Reads (λ bytes. bytes) (take_one S.scanned tokens.file) cursor.old result cursor.new }
    ensures shorter { OnOk result (length cursor.new.tokens < length cursor.old.tokens) }
{
    let bytes = file(alloc, cursor)?;
    Ok(ListOf::new(bytes))
}

/// Takes a quoted text that names a file, and gives it with its place.
pub fn located_file<C, S: Scan<C>>(
    alloc: Global,
    cursor: &mut Cursor<'_, S>,
) -> Result<(Position, ListOf<u8>), Stop<C>>
    ensures read { Reads (λ pair. pair) (take_one S.scanned (located tokens.file)) cursor.old result cursor.new }
    ensures shorter { OnOk result (length cursor.new.tokens < length cursor.old.tokens) }
{
    let position = cursor.position();
    let bytes = file_list(alloc, cursor)?;
    Ok((position, bytes))
}
