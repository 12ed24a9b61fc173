ghost use Rattle.std.specs.Prelude.{◌≡◌};
ghost use Rattle.grammar.specs.Cursor.{Reads};
ghost use Rattle.user_text.specs.Readers.Reading as reading;
ghost use Rattle.user_text.specs.UserText as user_text;

use crate::command::{CellText, UserBody, UserCommand};
use crate::counted::Counted;
use crate::fault::TooMany;
use cube_fixed::Money;
use grammar::{Cursor, Stop, minus, money, name, names, sign, word};
use std::alloc::Global;

/// Reads `name ( name { , name } )`.
#[tactic(auto, unfolding(crate::specs::Readers::Reading::read_cell))]
pub fn cell_at(alloc: Global, cursor: &mut Cursor<'_, Counted>) -> Result<CellText, Stop<TooMany>>
    ensures { Reads (λ cell. cell) reading.read_cell cursor.old result cursor.new }
{
    let cube = name(alloc, cursor)?;
    sign(cursor, b"(")?;
    let elements = names(alloc, cursor)?;
    sign(cursor, b")")?;
    Ok(CellText { cube, elements })
}

/// The number with the opposite sign, if it's to be negative. The range is the same on both sides of 0.
fn signed(negative: bool, number: Money) -> Money
    ensures { result ≡ user_text.signed negative number }
{
    if negative {
        Money::of(-number.millionths()).unwrap_or(Money::ZERO)
    } else {
        number
    }
}

/// Reads a number with an optional `-`.
#[tactic(auto, unfolding(crate::specs::Readers::Reading::read_amount))]
pub fn amount_at(cursor: &mut Cursor<'_, Counted>) -> Result<Money, Stop<TooMany>>
    ensures { Reads (λ number. number) reading.read_amount cursor.old result cursor.new }
{
    let negative = minus(cursor)?;
    let number = money(cursor)?;
    Ok(signed(negative, number))
}

/// Reads `PUT cell = number ;`.
#[tactic(auto, unfolding(crate::specs::Readers::Reading::read_put))]
pub fn put_at(alloc: Global, cursor: &mut Cursor<'_, Counted>) -> Result<UserCommand, Stop<TooMany>>
    ensures { Reads (λ command. command) reading.read_put cursor.old result cursor.new }
{
    let position = word(cursor, b"PUT")?;
    let target = cell_at(alloc, cursor)?;
    sign(cursor, b"=")?;
    let value = amount_at(cursor)?;
    sign(cursor, b";")?;
    let body = UserBody::Put(target, value);
    Ok(UserCommand { at: position, body })
}

/// Reads `GET cell ;`.
#[tactic(auto, unfolding(crate::specs::Readers::Reading::read_get))]
pub fn get_at(alloc: Global, cursor: &mut Cursor<'_, Counted>) -> Result<UserCommand, Stop<TooMany>>
    ensures { Reads (λ command. command) reading.read_get cursor.old result cursor.new }
{
    let position = word(cursor, b"GET")?;
    let target = cell_at(alloc, cursor)?;
    sign(cursor, b";")?;
    let body = UserBody::Get(target);
    Ok(UserCommand { at: position, body })
}

/// Reads `TRACE cell ;`.
#[tactic(auto, unfolding(crate::specs::Readers::Reading::read_trace))]
pub fn trace_at(
    alloc: Global,
    cursor: &mut Cursor<'_, Counted>,
) -> Result<UserCommand, Stop<TooMany>>
    ensures { Reads (λ command. command) reading.read_trace cursor.old result cursor.new }
{
    let position = word(cursor, b"TRACE")?;
    let target = cell_at(alloc, cursor)?;
    sign(cursor, b";")?;
    let body = UserBody::Trace(target);
    Ok(UserCommand { at: position, body })
}
