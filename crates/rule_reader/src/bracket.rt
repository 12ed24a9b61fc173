ghost use Rattle.std.specs.Prelude.{◌≡◌};
ghost use Rattle.grammar.specs.Cursor.{Reads};
ghost use Rattle.rule_reader.specs.Readers.Reading as reading;

use dim_name::Name;
use grammar::{Cursor, Item, Stop, listed, name, sign, sign_comes};
use lists::ListOf;
use rule_tree::{Counted, Excess, SimpleText};
use std::alloc::Global;

/// Reads what stands behind a name, which is the element, or the dimension where `:` follows.
#[tactic(auto, unfolding(crate::specs::Readers::Reading::read_behind_first))]
fn behind_first(
    alloc: Global,
    cursor: &mut Cursor<'_, Counted>,
    first: Name,
) -> Result<SimpleText, Stop<Excess>>
    ensures { Reads (λ simple. simple) (reading.read_behind_first first) cursor.old result cursor.new }
{
    if sign_comes(cursor, b":") {
        sign(cursor, b":")?;
        let element = name(alloc, cursor)?;
        Ok(SimpleText {
            dim: Some(first),
            element,
        })
    } else {
        Ok(SimpleText {
            dim: None,
            element: first,
        })
    }
}

/// `[ name : ] name`, as an item of a list.
struct SimpleItem;

impl Item<SimpleText, Excess, Counted> for SimpleItem {
    ghost use Rattle.rule_reader.specs.Readers.Reading.{read_simple};

    ghost may_read = { λ _. Unit {0} };

    ghost reads = { λ _. read_simple };

    #[tactic(auto, unfolding(crate::specs::Readers::Reading::read_simple))]
    fn read(
        &self,
        alloc: Global,
        cursor: &mut Cursor<'_, Counted>,
    ) -> Result<SimpleText, Stop<Excess>> {
        let first = name(alloc, cursor)?;
        behind_first(alloc, cursor, first)
    }
}

/// Reads the items up to a `]`.
#[tactic(auto, unfolding(crate::specs::Readers::Reading::read_up_to_bracket))]
fn up_to_bracket<T: Drop, I: Item<T, Excess, Counted>>(
    alloc: Global,
    cursor: &mut Cursor<'_, Counted>,
    item: &I,
) -> Result<ListOf<T>, Stop<Excess>>
    requires { I.may_read item.now }
    ensures { Reads (λ items. items) (reading.read_up_to_bracket (I.reads item.now)) cursor.old result cursor.new }
{
    if sign_comes(cursor, b"]") {
        Ok(ListOf::new(Vec::new(alloc)))
    } else {
        listed(alloc, cursor, item)
    }
}

/// Reads `[`, items with commas or none, and `]`.
#[tactic(auto, unfolding(crate::specs::Readers::Reading::read_in_brackets))]
pub fn in_brackets<T: Drop, I: Item<T, Excess, Counted>>(
    alloc: Global,
    cursor: &mut Cursor<'_, Counted>,
    item: &I,
) -> Result<ListOf<T>, Stop<Excess>>
    requires { I.may_read item.now }
    ensures { Reads (λ items. items) (reading.read_in_brackets (I.reads item.now)) cursor.old result cursor.new }
{
    sign(cursor, b"[")?;
    let items = up_to_bracket(alloc, cursor, item)?;
    sign(cursor, b"]")?;
    Ok(items)
}

/// Reads the elements that a bracket puts into the cell at hand.
pub fn bracket_at(
    alloc: Global,
    cursor: &mut Cursor<'_, Counted>,
) -> Result<ListOf<SimpleText>, Stop<Excess>>
    ensures { Reads (λ simples. simples) reading.read_bracket cursor.old result cursor.new }
{
    in_brackets(alloc, cursor, &SimpleItem)
}
