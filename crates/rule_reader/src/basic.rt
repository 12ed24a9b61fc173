ghost use Rattle.std.specs.Prelude.{◌≡◌};
ghost use Rattle.grammar.specs.Cursor.{Reads};
ghost use Rattle.grammar.specs.Reading.{take_one};
ghost use Rattle.rule_tree.specs.Counting.{count};
ghost use Rattle.rule_tree.specs.Formula as formula;
ghost use Rattle.rule_reader.specs.Readers.Reading as reading;

use crate::bracket::bracket_at;
use cube_lex::Kind;
use dim_name::{Name, NameFault};
use grammar::{Cursor, Stop, any_word_comes, money, name, sign, text};
use lists::ListOf;
use rule_tree::{Counted, Excess, Tree};
use std::alloc::Global;

/// Takes a word that is a name.
fn word_name(alloc: Global, cursor: &mut Cursor<'_, Counted>) -> Result<Name, Stop<Excess>>
    ensures { Reads (λ name. name) (take_one count formula.word_name) cursor.old result cursor.new }
{
    let Some(token) = cursor.peek() else {
        return Err(cursor.unexpected());
    };
    match token.kind {
        Kind::Word => match Name::new(alloc, token.piece) {
            Ok(name) => {
                cursor.advance()?;
                Ok(name)
            }
            Err(NameFault::NotAName) => Err(cursor.unexpected()),
            Err(NameFault::Memory) => Err(Stop::Memory),
        },
        _ => Err(cursor.unexpected()),
    }
}

/// Reads a number.
#[tactic(auto, unfolding(crate::specs::Readers::Reading::read_number))]
pub fn number_at(cursor: &mut Cursor<'_, Counted>) -> Result<Tree, Stop<Excess>>
    ensures { Reads (λ tree. tree) reading.read_number cursor.old result cursor.new }
{
    let value = money(cursor)?;
    Ok(Tree::Number(value))
}

/// Reads a quoted text.
#[tactic(auto, unfolding(crate::specs::Readers::Reading::read_quoted))]
pub fn quoted_at(alloc: Global, cursor: &mut Cursor<'_, Counted>) -> Result<Tree, Stop<Excess>>
    ensures { Reads (λ tree. tree) reading.read_quoted cursor.old result cursor.new }
{
    let bytes = text(alloc, cursor)?;
    Ok(Tree::Text(ListOf::new(bytes)))
}

/// Reads a dimension behind `!`, as a word or in quotes.
#[tactic(auto, unfolding(crate::specs::Readers::Reading::read_dimension))]
fn dimension_at(alloc: Global, cursor: &mut Cursor<'_, Counted>) -> Result<Name, Stop<Excess>>
    ensures { Reads (λ name. name) reading.read_dimension cursor.old result cursor.new }
{
    if any_word_comes(cursor) {
        word_name(alloc, cursor)
    } else {
        name(alloc, cursor)
    }
}

/// Reads `!` and a dimension.
#[tactic(auto, unfolding(crate::specs::Readers::Reading::read_current))]
pub fn current_at(alloc: Global, cursor: &mut Cursor<'_, Counted>) -> Result<Tree, Stop<Excess>>
    ensures { Reads (λ tree. tree) reading.read_current cursor.old result cursor.new }
{
    sign(cursor, b"!")?;
    let dim = dimension_at(alloc, cursor)?;
    Ok(Tree::Current(dim))
}

/// Reads a reference in brackets.
#[tactic(auto, unfolding(crate::specs::Readers::Reading::read_reference))]
pub fn reference_at(alloc: Global, cursor: &mut Cursor<'_, Counted>) -> Result<Tree, Stop<Excess>>
    ensures { Reads (λ tree. tree) reading.read_reference cursor.old result cursor.new }
{
    let simples = bracket_at(alloc, cursor)?;
    Ok(Tree::Bracket(simples))
}
