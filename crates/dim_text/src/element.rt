ghost use Rattle.std.specs.Prelude.{◌≡◌, codes};
ghost use Rattle.grammar.specs.Cursor.{Reads};
ghost use Rattle.grammar.specs.Reading.{starts};
ghost use Rattle.dim_text.specs.Readers.Reading as reading;
ghost use Rattle.dim_text.specs.Statement.{signed};
ghost use Rattle.dim_text.specs.Readers.Views.{element_view, head_view};

use crate::fault::Refusal;
use cube_lex::Position;
use dim_core::Name;
use grammar::{
    Cursor, Item, Stop, Unwatched, listed, minus, name, sign, sign_comes, text, whole, word,
    word_comes,
};
use std::alloc::Global;

/// A statement of a block, with the place of its first word.
#[derive(Drop)]
pub enum Element {
    Leaf(Position, Name),
    /// Its components, each with its weight.
    Consolidated(Position, Name, Vec<(Name, i64)>),
    /// An element, the name of one of its attributes, and the text.
    Attribute(Position, Name, Name, Vec<u8>),
}

/// Reads the head of a block, `DIM name ;`, and gives its place and its name.
#[tactic(auto, unfolding(crate::specs::Readers::Reading::read_head))]
pub fn head_at(
    alloc: Global,
    cursor: &mut Cursor<'_, Unwatched>,
) -> Result<(Position, Name), Stop<Refusal>>
    ensures { Reads head_view reading.read_head cursor.old result cursor.new }
{
    let position = word(cursor, b"DIM")?;
    let shown = name(alloc, cursor)?;
    sign(cursor, b";")?;
    Ok((position, shown))
}

fn signed(negative: bool, n: u32) -> i64
    ensures { result ≡ signed negative n }
{
    if negative {
        -i64::from(n)
    } else {
        i64::from(n)
    }
}

/// Reads an optional `*` with its weight. A weight that isn't given is 1.
#[tactic(auto, unfolding(crate::specs::Readers::Reading::read_weight))]
fn weight_at(cursor: &mut Cursor<'_, Unwatched>) -> Result<i64, Stop<Refusal>>
    ensures { Reads (λ weight. weight) reading.read_weight cursor.old result cursor.new }
{
    if sign_comes(cursor, b"*") {
        sign(cursor, b"*")?;
        let negative = minus(cursor)?;
        let n = whole(cursor)?;
        Ok(signed(negative, n))
    } else {
        Ok(1)
    }
}

/// Reads a component with its weight.
struct Part;

impl Item<(Name, i64), Refusal, Unwatched> for Part {
    ghost use Rattle.dim_text.specs.Readers.Reading.{read_part};

    ghost may_read = { λ _. Unit {0} };

    ghost reads = { λ _. read_part };

    #[tactic(auto, unfolding(crate::specs::Readers::Reading::read_part))]
    fn read(
        &self,
        alloc: Global,
        cursor: &mut Cursor<'_, Unwatched>,
    ) -> Result<(Name, i64), Stop<Refusal>> {
        let shown = name(alloc, cursor)?;
        let weight = weight_at(cursor)?;
        Ok((shown, weight))
    }
}

/// Reads the components of an element, if there are any.
#[tactic(auto, unfolding(crate::specs::Readers::Reading::read_parts))]
fn parts_at(
    alloc: Global,
    cursor: &mut Cursor<'_, Unwatched>,
) -> Result<Vec<(Name, i64)>, Stop<Refusal>>
    ensures { Reads (λ parts. parts.items) reading.read_parts cursor.old result cursor.new }
{
    if sign_comes(cursor, b":") {
        sign(cursor, b":")?;
        let parts = listed(alloc, cursor, &Part)?;
        Ok(parts.into_vec())
    } else {
        Ok(Vec::new(alloc))
    }
}

/// Reads `N name ;`.
#[tactic(auto, unfolding(crate::specs::Readers::Reading::read_leaf))]
fn leaf_at(alloc: Global, cursor: &mut Cursor<'_, Unwatched>) -> Result<Element, Stop<Refusal>>
    ensures { Reads element_view reading.read_leaf cursor.old result cursor.new }
{
    let position = word(cursor, b"N")?;
    let shown = name(alloc, cursor)?;
    sign(cursor, b";")?;
    Ok(Element::Leaf(position, shown))
}

/// Reads `C name [ : part { , part } ] ;`.
#[tactic(auto, unfolding(crate::specs::Readers::Reading::read_consolidated))]
fn consolidated_at(
    alloc: Global,
    cursor: &mut Cursor<'_, Unwatched>,
) -> Result<Element, Stop<Refusal>>
    ensures { Reads element_view reading.read_consolidated cursor.old result cursor.new }
{
    let position = word(cursor, b"C")?;
    let shown = name(alloc, cursor)?;
    let parts = parts_at(alloc, cursor)?;
    sign(cursor, b";")?;
    Ok(Element::Consolidated(position, shown, parts))
}

/// Reads `A name name = Text ;`.
#[tactic(auto, unfolding(crate::specs::Readers::Reading::read_attribute))]
fn attribute_at(alloc: Global, cursor: &mut Cursor<'_, Unwatched>) -> Result<Element, Stop<Refusal>>
    ensures { Reads element_view reading.read_attribute cursor.old result cursor.new }
{
    let position = word(cursor, b"A")?;
    let shown = name(alloc, cursor)?;
    let called = name(alloc, cursor)?;
    sign(cursor, b"=")?;
    let value = text(alloc, cursor)?;
    sign(cursor, b";")?;
    Ok(Element::Attribute(position, shown, called, value))
}

/// Whether an element's statement comes.
pub fn element_comes(cursor: &Cursor<'_, Unwatched>) -> bool
    ensures { result ≡ starts reading.is_element_word cursor.now.tokens }
{
    word_comes(cursor, b"N") || word_comes(cursor, b"C") || word_comes(cursor, b"A")
}

/// Reads an element's statement.
#[tactic(auto, unfolding(crate::specs::Readers::Reading::read_element))]
pub fn element_at(
    alloc: Global,
    cursor: &mut Cursor<'_, Unwatched>,
) -> Result<Element, Stop<Refusal>>
    ensures { Reads element_view reading.read_element cursor.old result cursor.new }
{
    if word_comes(cursor, b"N") {
        leaf_at(alloc, cursor)
    } else if word_comes(cursor, b"C") {
        consolidated_at(alloc, cursor)
    } else {
        attribute_at(alloc, cursor)
    }
}
