ghost use Rattle.std.specs.Prelude.{◌≡◌};
ghost use Rattle.grammar.specs.Cursor.{Reads};
ghost use Rattle.user_text.specs.Readers.Reading as reading;

use crate::command::{LoadText, UserBody, UserCommand};
use crate::counted::Counted;
use crate::fault::TooMany;
use crate::file_signs::{COMMA, decimal_at, separator_at};
use crate::params::params_at;
use cube_fixed::DECIMAL_POINT;
use grammar::{Cursor, Stop, file, name, sign, whole, word, word_comes};
use lists::ListOf;
use std::alloc::Global;

/// Reads how many records at the file's beginning are skipped. Where nothing is said it is none.
#[tactic(auto, unfolding(crate::specs::Readers::Reading::read_skip))]
fn skip_at(cursor: &mut Cursor<'_, Counted>) -> Result<u32, Stop<TooMany>>
    ensures { Reads (λ records. records) reading.read_skip cursor.old result cursor.new }
{
    if word_comes(cursor, b"SKIP") {
        word(cursor, b"SKIP")?;
        whole(cursor)
    } else {
        Ok(0)
    }
}

/// Reads how many records may be passed over at most, where that is said.
#[tactic(auto, unfolding(crate::specs::Readers::Reading::read_rejects))]
fn rejects_at(cursor: &mut Cursor<'_, Counted>) -> Result<Option<u32>, Stop<TooMany>>
    ensures { Reads (λ rejects. rejects) reading.read_rejects cursor.old result cursor.new }
{
    if word_comes(cursor, b"REJECTS") {
        word(cursor, b"REJECTS")?;
        let most = whole(cursor)?;
        Ok(Some(most))
    } else {
        Ok(None)
    }
}

/// Where the records come from: the file, how many records at its beginning are skipped, the bytes between columns and
/// between units and decimals, and how many records may be passed over.
type Source = (Option<ListOf<u8>>, u32, u8, u8, Option<u32>);

/// Reads the file of the records, and how it is read.
#[tactic(auto, unfolding(crate::specs::Readers::Reading::read_given_source))]
fn given_source(alloc: Global, cursor: &mut Cursor<'_, Counted>) -> Result<Source, Stop<TooMany>>
    ensures { Reads (λ source. source) reading.read_given_source cursor.old result cursor.new }
{
    word(cursor, b"FROM")?;
    let path = file(alloc, cursor)?;
    let skip = skip_at(cursor)?;
    let separator = separator_at(alloc, cursor)?;
    let decimal = decimal_at(alloc, cursor, separator)?;
    let rejects = rejects_at(cursor)?;
    Ok((Some(ListOf::new(path)), skip, separator, decimal, rejects))
}

/// Reads where the records come from, if they do.
#[tactic(auto, unfolding(crate::specs::Readers::Reading::read_source))]
fn source_at(alloc: Global, cursor: &mut Cursor<'_, Counted>) -> Result<Source, Stop<TooMany>>
    ensures { Reads (λ source. source) reading.read_source cursor.old result cursor.new }
{
    if word_comes(cursor, b"FROM") {
        given_source(alloc, cursor)
    } else {
        Ok((None, 0, COMMA, DECIMAL_POINT, None))
    }
}

/// Reads `LOAD name [ FROM file [ SKIP whole ] [ SEPARATOR ( Text | TAB ) ] [ DECIMAL Text ] [ REJECTS whole ] ]
/// [ WITH param { , param } ] ;`.
#[tactic(auto, unfolding(crate::specs::Readers::Reading::read_load))]
pub fn load_at(
    alloc: Global,
    cursor: &mut Cursor<'_, Counted>,
) -> Result<UserCommand, Stop<TooMany>>
    ensures { Reads (λ command. command) reading.read_load cursor.old result cursor.new }
{
    let position = word(cursor, b"LOAD")?;
    let script = name(alloc, cursor)?;
    let (file, skip, separator, decimal, rejects) = source_at(alloc, cursor)?;
    let params = params_at(alloc, cursor)?;
    sign(cursor, b";")?;
    let body = UserBody::Load(LoadText {
        script,
        file,
        skip,
        separator,
        decimal,
        rejects,
        params,
    });
    Ok(UserCommand { at: position, body })
}
