ghost use Rattle.std.specs.Prelude.{◌≡◌};
ghost use Rattle.grammar.specs.Cursor.{Reads};
ghost use Rattle.user_text.specs.Readers.Reading as reading;

use crate::command::{SetText, UserBody, UserCommand, ViewText};
use crate::counted::Counted;
use crate::fault::TooMany;
use dim_name::Name;
use grammar::{
    Cursor, Item, RepeatedItem, Stop, listed, name, names, repeated_behind, sign, sign_comes, word,
    word_comes,
};
use lists::ListOf;
use std::alloc::Global;

/// Reads the elements of a set, if they are listed.
#[tactic(auto, unfolding(crate::specs::Readers::Reading::read_elements))]
fn elements_at(
    alloc: Global,
    cursor: &mut Cursor<'_, Counted>,
) -> Result<Option<ListOf<Name>>, Stop<TooMany>>
    ensures { Reads (λ elements. elements) reading.read_elements cursor.old result cursor.new }
{
    if sign_comes(cursor, b":") {
        sign(cursor, b":")?;
        let elements = names(alloc, cursor)?;
        Ok(Some(elements))
    } else {
        Ok(None)
    }
}

/// Reads `name [ : name { , name } ]`.
#[tactic(auto, unfolding(crate::specs::Readers::Reading::read_set))]
fn set_at(alloc: Global, cursor: &mut Cursor<'_, Counted>) -> Result<SetText, Stop<TooMany>>
    ensures { Reads (λ set. set) reading.read_set cursor.old result cursor.new }
{
    let dim = name(alloc, cursor)?;
    let elements = elements_at(alloc, cursor)?;
    Ok(SetText { dim, elements })
}

/// A set behind its `BY`.
struct NextSet;

impl RepeatedItem<SetText, TooMany, Counted> for NextSet {
    ghost use Rattle.std.specs.Prelude.{codes};
    ghost use Rattle.grammar.specs.Tokens.{is_word};
    ghost use Rattle.user_text.specs.Readers.Reading.{read_next_set};

    ghost may_repeat = { λ _. Unit {0} };

    ghost begins = { λ _. is_word (codes "BY") };

    ghost reads_next = { λ _. read_next_set };

    fn comes(&self, cursor: &Cursor<'_, Counted>) -> bool {
        word_comes(cursor, b"BY")
    }

    #[tactic(auto, unfolding(crate::specs::Readers::Reading::read_next_set))]
    fn read_next(
        &self,
        alloc: Global,
        cursor: &mut Cursor<'_, Counted>,
    ) -> Result<SetText, Stop<TooMany>> {
        word(cursor, b"BY")?;
        set_at(alloc, cursor)
    }
}

/// Reads `set { BY set }`.
#[tactic(auto, unfolding(crate::specs::Readers::Reading::read_axis))]
fn axis_at(
    alloc: Global,
    cursor: &mut Cursor<'_, Counted>,
) -> Result<ListOf<SetText>, Stop<TooMany>>
    ensures { Reads (λ sets. sets) reading.read_axis cursor.old result cursor.new }
{
    let first = set_at(alloc, cursor)?;
    repeated_behind(alloc, cursor, &NextSet, first)
}

/// A point, `name : name`.
struct Point;

impl Item<(Name, Name), TooMany, Counted> for Point {
    ghost use Rattle.user_text.specs.Readers.Reading.{read_point};

    ghost may_read = { λ _. Unit {0} };

    ghost reads = { λ _. read_point };

    #[tactic(auto, unfolding(crate::specs::Readers::Reading::read_point))]
    fn read(
        &self,
        alloc: Global,
        cursor: &mut Cursor<'_, Counted>,
    ) -> Result<(Name, Name), Stop<TooMany>> {
        let dim = name(alloc, cursor)?;
        sign(cursor, b":")?;
        let element = name(alloc, cursor)?;
        Ok((dim, element))
    }
}

/// Reads the points of a view, if there are any.
#[tactic(auto, unfolding(crate::specs::Readers::Reading::read_points))]
fn points_at(
    alloc: Global,
    cursor: &mut Cursor<'_, Counted>,
) -> Result<ListOf<(Name, Name)>, Stop<TooMany>>
    ensures { Reads (λ points. points) reading.read_points cursor.old result cursor.new }
{
    if word_comes(cursor, b"AT") {
        word(cursor, b"AT")?;
        listed(alloc, cursor, &Point)
    } else {
        Ok(ListOf::new(Vec::new(alloc)))
    }
}

/// Reads an optional `NOZEROS`.
#[tactic(auto, unfolding(crate::specs::Readers::Reading::read_nozeros))]
fn nozeros_at(cursor: &mut Cursor<'_, Counted>) -> Result<bool, Stop<TooMany>>
    ensures { Reads (λ nozeros. nozeros) reading.read_nozeros cursor.old result cursor.new }
{
    if word_comes(cursor, b"NOZEROS") {
        word(cursor, b"NOZEROS")?;
        Ok(true)
    } else {
        Ok(false)
    }
}

/// Reads `VIEW name ROWS axis COLUMNS axis [ AT point { , point } ] [ NOZEROS ] ;`.
#[tactic(auto, unfolding(crate::specs::Readers::Reading::read_view))]
pub fn view_at(
    alloc: Global,
    cursor: &mut Cursor<'_, Counted>,
) -> Result<UserCommand, Stop<TooMany>>
    ensures { Reads (λ command. command) reading.read_view cursor.old result cursor.new }
{
    let position = word(cursor, b"VIEW")?;
    let cube = name(alloc, cursor)?;
    word(cursor, b"ROWS")?;
    let rows = axis_at(alloc, cursor)?;
    word(cursor, b"COLUMNS")?;
    let columns = axis_at(alloc, cursor)?;
    let points = points_at(alloc, cursor)?;
    let nozeros = nozeros_at(cursor)?;
    sign(cursor, b";")?;
    let body = UserBody::View(ViewText {
        cube,
        rows,
        columns,
        points,
        nozeros,
    });
    Ok(UserCommand { at: position, body })
}
