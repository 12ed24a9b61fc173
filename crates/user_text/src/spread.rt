ghost use Rattle.grammar.specs.Cursor.{Reads};
ghost use Rattle.user_text.specs.Readers.Reading as reading;

use crate::cell::{amount_at, cell_at};
use crate::command::{SpreadWord, UserBody, UserCommand};
use crate::counted::Counted;
use crate::fault::TooMany;
use grammar::{Cursor, Stop, sign, word, word_comes};
use std::alloc::Global;

/// Reads `EQUAL` or `PROPORTIONAL`.
#[tactic(auto, unfolding(crate::specs::Readers::Reading::read_spread_word))]
fn spread_word_at(cursor: &mut Cursor<'_, Counted>) -> Result<SpreadWord, Stop<TooMany>>
    ensures { Reads (λ how. how) reading.read_spread_word cursor.old result cursor.new }
{
    if word_comes(cursor, b"EQUAL") {
        word(cursor, b"EQUAL")?;
        Ok(SpreadWord::Equal)
    } else {
        word(cursor, b"PROPORTIONAL")?;
        Ok(SpreadWord::Proportional)
    }
}

/// Reads `SPREAD cell = number EQUAL ;` or the same with `PROPORTIONAL`.
#[tactic(auto, unfolding(crate::specs::Readers::Reading::read_spread))]
pub fn spread_at(
    alloc: Global,
    cursor: &mut Cursor<'_, Counted>,
) -> Result<UserCommand, Stop<TooMany>>
    ensures { Reads (λ command. command) reading.read_spread cursor.old result cursor.new }
{
    let position = word(cursor, b"SPREAD")?;
    let target = cell_at(alloc, cursor)?;
    sign(cursor, b"=")?;
    let amount = amount_at(cursor)?;
    let how = spread_word_at(cursor)?;
    sign(cursor, b";")?;
    let body = UserBody::Spread(target, amount, how);
    Ok(UserCommand { at: position, body })
}
