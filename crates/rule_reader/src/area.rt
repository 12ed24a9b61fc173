ghost use Rattle.std.specs.Prelude.{[], ◌∷◌, ◌≡◌, IfOk};
ghost use Rattle.grammar.specs.Cursor.{Reads};
ghost use Rattle.rule_reader.specs.Readers.TextReading as reading;

use crate::bracket::in_brackets;
use dim_name::Name;
use grammar::{Cursor, Item, Stop, name, names, sign, sign_comes};
use lists::ListOf;
use rule_tree::{Counted, EntryText, Excess};
use std::alloc::{AllocError, Global};

/// Reads names in braces.
#[tactic(auto, unfolding(crate::specs::Readers::TextReading::read_braced))]
fn braced_at(alloc: Global, cursor: &mut Cursor<'_, Counted>) -> Result<ListOf<Name>, Stop<Excess>>
    ensures { Reads (λ names. names) reading.read_braced cursor.old result cursor.new }
{
    sign(cursor, b"{")?;
    let elements = names(alloc, cursor)?;
    sign(cursor, b"}")?;
    Ok(elements)
}

/// Reads a name, as a list of one.
#[tactic(auto, unfolding(crate::specs::Readers::TextReading::read_alone))]
fn alone_at(alloc: Global, cursor: &mut Cursor<'_, Counted>) -> Result<ListOf<Name>, Stop<Excess>>
    ensures { Reads (λ names. names) reading.read_alone cursor.old result cursor.new }
{
    let name = name(alloc, cursor)?;
    let names = only(alloc, name)?;
    Ok(names)
}

/// Reads a name, or names in braces.
#[tactic(auto, unfolding(crate::specs::Readers::TextReading::read_elements))]
fn elements_at(
    alloc: Global,
    cursor: &mut Cursor<'_, Counted>,
) -> Result<ListOf<Name>, Stop<Excess>>
    ensures { Reads (λ names. names) reading.read_elements cursor.old result cursor.new }
{
    if sign_comes(cursor, b"{") {
        braced_at(alloc, cursor)
    } else {
        alone_at(alloc, cursor)
    }
}

/// A list of one name.
fn only(alloc: Global, name: Name) -> Result<ListOf<Name>, AllocError>
    ensures { IfOk result (λ names. names ≡ name ∷ []) }
{
    let mut names = Vec::new(alloc);
    names.push(name)?;
    Ok(ListOf::new(names))
}

/// Reads what stands behind a name, which is the element, or the dimension where `:` follows.
#[tactic(auto, unfolding(crate::specs::Readers::TextReading::read_behind_first))]
fn behind_first(
    alloc: Global,
    cursor: &mut Cursor<'_, Counted>,
    first: Name,
) -> Result<EntryText, Stop<Excess>>
    ensures { Reads (λ entry. entry) (reading.read_behind_first first) cursor.old result cursor.new }
{
    if sign_comes(cursor, b":") {
        sign(cursor, b":")?;
        let elements = elements_at(alloc, cursor)?;
        let dim = Some(first);
        Ok(EntryText { dim, elements })
    } else {
        let elements = only(alloc, first)?;
        Ok(EntryText {
            dim: None,
            elements,
        })
    }
}

/// `[ name : ] ( name | { name { , name } } )`, as an item of a list.
struct EntryItem;

impl Item<EntryText, Excess, Counted> for EntryItem {
    ghost use Rattle.rule_reader.specs.Readers.TextReading.{read_entry};

    ghost may_read = { λ _. Unit {0} };

    ghost reads = { λ _. read_entry };

    #[tactic(auto, unfolding(crate::specs::Readers::TextReading::read_entry))]
    fn read(
        &self,
        alloc: Global,
        cursor: &mut Cursor<'_, Counted>,
    ) -> Result<EntryText, Stop<Excess>> {
        if sign_comes(cursor, b"{") {
            let elements = braced_at(alloc, cursor)?;
            Ok(EntryText {
                dim: None,
                elements,
            })
        } else {
            let first = name(alloc, cursor)?;
            behind_first(alloc, cursor, first)
        }
    }
}

/// Reads the entries of an area.
pub fn area_at(
    alloc: Global,
    cursor: &mut Cursor<'_, Counted>,
) -> Result<ListOf<EntryText>, Stop<Excess>>
    ensures { Reads (λ entries. entries) reading.read_area cursor.old result cursor.new }
{
    in_brackets(alloc, cursor, &EntryItem)
}
