ghost use Rattle.std.specs.Prelude.{◌≡◌};
ghost use Rattle.grammar.specs.Cursor.{Reads};
ghost use Rattle.rule_reader.specs.Readers.TextReading as reading;

use crate::area::area_at;
use crate::formula::formula_at;
use expression_grammar::pair_comes;
use grammar::{Cursor, RepeatedItem, Stop, sign, sign_comes, word, word_comes};
use rule_tree::{BodyText, Counted, Excess, StatementText, Tree};
use std::alloc::Global;

/// Reads `formula ;`.
#[tactic(auto, unfolding(crate::specs::Readers::TextReading::read_ended))]
fn ended_at(alloc: Global, cursor: &mut Cursor<'_, Counted>) -> Result<Tree, Stop<Excess>>
    ensures { Reads (λ tree. tree) reading.read_ended cursor.old result cursor.new }
{
    let tree = formula_at(alloc, cursor)?;
    sign(cursor, b";")?;
    Ok(tree)
}

/// Reads a mark, `:` and `formula ;`.
#[tactic(auto, unfolding(crate::specs::Readers::TextReading::read_part))]
fn part_at(
    alloc: Global,
    cursor: &mut Cursor<'_, Counted>,
    mark: &[u8],
) -> Result<Tree, Stop<Excess>>
    ensures { Reads (λ tree. tree) (reading.read_part mark.now) cursor.old result cursor.new }
{
    word(cursor, mark)?;
    sign(cursor, b":")?;
    ended_at(alloc, cursor)
}

/// Reads what stands behind the part for leaf cells, where that comes first.
#[tactic(auto, unfolding(crate::specs::Readers::TextReading::read_behind_leaf))]
fn behind_leaf(
    alloc: Global,
    cursor: &mut Cursor<'_, Counted>,
    leaf: Tree,
) -> Result<BodyText, Stop<Excess>>
    ensures { Reads (λ body. body) (reading.read_behind_leaf leaf) cursor.old result cursor.new }
{
    if word_comes(cursor, b"C") {
        let cons = part_at(alloc, cursor, b"C")?;
        Ok(BodyText::LeafCons(leaf, cons))
    } else {
        Ok(BodyText::Leaf(leaf))
    }
}

/// Reads one or two parts, of which the first is for leaf cells.
#[tactic(auto, unfolding(crate::specs::Readers::TextReading::read_leaf_first))]
fn leaf_first(alloc: Global, cursor: &mut Cursor<'_, Counted>) -> Result<BodyText, Stop<Excess>>
    ensures { Reads (λ body. body) reading.read_leaf_first cursor.old result cursor.new }
{
    let leaf = part_at(alloc, cursor, b"N")?;
    behind_leaf(alloc, cursor, leaf)
}

/// Reads what stands behind the part for consolidated cells, where that comes first.
#[tactic(auto, unfolding(crate::specs::Readers::TextReading::read_behind_cons))]
fn behind_cons(
    alloc: Global,
    cursor: &mut Cursor<'_, Counted>,
    cons: Tree,
) -> Result<BodyText, Stop<Excess>>
    ensures { Reads (λ body. body) (reading.read_behind_cons cons) cursor.old result cursor.new }
{
    if word_comes(cursor, b"N") {
        let leaf = part_at(alloc, cursor, b"N")?;
        Ok(BodyText::ConsLeaf(cons, leaf))
    } else {
        Ok(BodyText::Cons(cons))
    }
}

/// Reads one or two parts, of which the first is for consolidated cells.
#[tactic(auto, unfolding(crate::specs::Readers::TextReading::read_cons_first))]
fn cons_first(alloc: Global, cursor: &mut Cursor<'_, Counted>) -> Result<BodyText, Stop<Excess>>
    ensures { Reads (λ body. body) reading.read_cons_first cursor.old result cursor.new }
{
    let cons = part_at(alloc, cursor, b"C")?;
    behind_cons(alloc, cursor, cons)
}

/// Reads one formula for all cells.
#[tactic(auto, unfolding(crate::specs::Readers::TextReading::read_both))]
fn both_at(alloc: Global, cursor: &mut Cursor<'_, Counted>) -> Result<BodyText, Stop<Excess>>
    ensures { Reads (λ body. body) reading.read_both cursor.old result cursor.new }
{
    let tree = ended_at(alloc, cursor)?;
    Ok(BodyText::Both(tree))
}

/// Whether a part comes. A mark is also the word of a function, but then `(` follows.
fn part_comes(cursor: &Cursor<'_, Counted>, mark: &[u8]) -> bool
    ensures { result ≡ reading.starts_part mark.now cursor.now.tokens }
{
    pair_comes(cursor, mark, b":")
}

/// Reads what a statement says of its cells.
#[tactic(auto, unfolding(crate::specs::Readers::TextReading::read_body))]
fn body_at(alloc: Global, cursor: &mut Cursor<'_, Counted>) -> Result<BodyText, Stop<Excess>>
    ensures { Reads (λ body. body) reading.read_body cursor.old result cursor.new }
{
    if part_comes(cursor, b"N") {
        leaf_first(alloc, cursor)
    } else if part_comes(cursor, b"C") {
        cons_first(alloc, cursor)
    } else {
        both_at(alloc, cursor)
    }
}

/// A statement, which begins with the `[` of its area.
pub struct StatementItem;

impl RepeatedItem<StatementText, Excess, Counted> for StatementItem {
    ghost use Rattle.std.specs.Prelude.{codes};
    ghost use Rattle.grammar.specs.Tokens.{is_sign};
    ghost use Rattle.rule_reader.specs.Readers.TextReading.{read_statement};

    ghost may_repeat = { λ _. Unit {0} };

    ghost begins = { λ _. is_sign (codes "[") };

    ghost reads_next = { λ _. read_statement };

    fn comes(&self, cursor: &Cursor<'_, Counted>) -> bool {
        sign_comes(cursor, b"[")
    }

    #[tactic(auto, unfolding(crate::specs::Readers::TextReading::read_statement))]
    fn read_next(
        &self,
        alloc: Global,
        cursor: &mut Cursor<'_, Counted>,
    ) -> Result<StatementText, Stop<Excess>> {
        let area = area_at(alloc, cursor)?;
        sign(cursor, b"=")?;
        let body = body_at(alloc, cursor)?;
        Ok(StatementText { area, body })
    }
}
