ghost use Rattle.std.specs.Prelude.{◌≡◌, ◌∷◌, ◌&&◌, [], IfOk, codes};
ghost use Rattle.grammar.specs.Cursor.{Reads};
ghost use Rattle.grammar.specs.Reading.{starts};
ghost use Rattle.grammar.specs.Tokens.{is_word};
ghost use Rattle.model_text.specs.Gathering as gathering;
ghost use Rattle.model_text.specs.Readers.Reading as reading;
ghost use Rattle.model_text.specs.Statement.{CubeEnd};

use crate::fault::ModelTextFault;
use crate::order::{OrderLine, OrderWord};
use cube_lex::Position;
use dim_name::Name;
use grammar::{
    Cursor, Item, Stop, Unwatched, file, listed, name, number_comes, sign, sign_comes, text_comes,
    whole, word, word_comes,
};
use lists::ListOf;
use std::alloc::{AllocError, Global};

/// Reads the rule file of a cube, if there is one: `RULES file ;`.
#[tactic(auto, unfolding(crate::specs::Readers::Reading::read_rules))]
fn rules_at(
    alloc: Global,
    cursor: &mut Cursor<'_, Unwatched>,
) -> Result<Option<(Position, ListOf<u8>)>, Stop<ModelTextFault>>
    ensures { Reads (λ rules. rules) reading.read_rules cursor.old result cursor.new }
{
    if word_comes(cursor, b"RULES") {
        let position = word(cursor, b"RULES")?;
        let bytes = file(alloc, cursor)?;
        sign(cursor, b";")?;
        Ok(Some((position, ListOf::new(bytes))))
    } else {
        Ok(None)
    }
}

/// Reads an element with its rank.
struct Rank;

impl Item<(Name, u32), ModelTextFault, Unwatched> for Rank {
    ghost use Rattle.model_text.specs.Readers.Reading.{read_rank};

    ghost may_read = { λ _. Unit {0} };

    ghost reads = { λ _. read_rank };

    #[tactic(auto, unfolding(crate::specs::Readers::Reading::read_rank))]
    fn read(
        &self,
        alloc: Global,
        cursor: &mut Cursor<'_, Unwatched>,
    ) -> Result<(Name, u32), Stop<ModelTextFault>> {
        let shown = name(alloc, cursor)?;
        let rank = whole(cursor)?;
        Ok((shown, rank))
    }
}

/// Reads the ranks of elements in parentheses.
#[tactic(auto, unfolding(crate::specs::Readers::Reading::read_in_parentheses))]
fn in_parentheses(
    alloc: Global,
    cursor: &mut Cursor<'_, Unwatched>,
) -> Result<ListOf<(Name, u32)>, Stop<ModelTextFault>>
    ensures { Reads (λ list. list) reading.read_in_parentheses cursor.old result cursor.new }
{
    sign(cursor, b"(")?;
    let list = listed(alloc, cursor, &Rank)?;
    sign(cursor, b")")?;
    Ok(list)
}

/// Whether the word `TOTALS` comes, where it may stand.
fn totals_come(cursor: &Cursor<'_, Unwatched>, totals: bool) -> bool
    ensures { result ≡ (totals && starts (is_word (codes "TOTALS")) cursor.now.tokens) }
{
    totals && word_comes(cursor, b"TOTALS")
}

/// Reads `TOTALS` and the ranks for consolidated cells, behind those for leaf cells.
#[tactic(auto, unfolding(crate::specs::Readers::Reading::read_total_ranks))]
fn total_ranks_at(
    alloc: Global,
    cursor: &mut Cursor<'_, Unwatched>,
    shown: Name,
    leaves: ListOf<(Name, u32)>,
) -> Result<OrderWord, Stop<ModelTextFault>>
    ensures { Reads (λ word. word) (reading.read_total_ranks shown leaves) cursor.old result cursor.new }
{
    word(cursor, b"TOTALS")?;
    let totals = in_parentheses(alloc, cursor)?;
    Ok(OrderWord::RanksByKind(shown, leaves, totals))
}

/// Reads what stands behind the ranks for leaf cells: those for consolidated cells, or nothing.
#[tactic(auto, unfolding(crate::specs::Readers::Reading::read_behind_ranks))]
fn behind_ranks(
    alloc: Global,
    cursor: &mut Cursor<'_, Unwatched>,
    totals: bool,
    shown: Name,
    leaves: ListOf<(Name, u32)>,
) -> Result<OrderWord, Stop<ModelTextFault>>
    ensures { Reads (λ word. word) (reading.read_behind_ranks totals shown leaves) cursor.old result cursor.new }
{
    if totals_come(cursor, totals) {
        total_ranks_at(alloc, cursor, shown, leaves)
    } else {
        Ok(OrderWord::Ranks(shown, leaves))
    }
}

/// Reads what stands behind the name of a position's dimension: the ranks of its elements in parentheses, or nothing.
#[tactic(auto, unfolding(crate::specs::Readers::Reading::read_ranks))]
fn ranks_at(
    alloc: Global,
    cursor: &mut Cursor<'_, Unwatched>,
    totals: bool,
    shown: Name,
) -> Result<OrderWord, Stop<ModelTextFault>>
    ensures { Reads (λ word. word) (reading.read_ranks totals shown) cursor.old result cursor.new }
{
    if sign_comes(cursor, b"(") {
        let leaves = in_parentheses(alloc, cursor)?;
        behind_ranks(alloc, cursor, totals, shown, leaves)
    } else {
        Ok(OrderWord::Index(shown))
    }
}

/// Reads `TOTALS`, which is a position.
#[tactic(auto, unfolding(crate::specs::Readers::Reading::read_cell_kind))]
fn cell_kind_at(cursor: &mut Cursor<'_, Unwatched>) -> Result<OrderWord, Stop<ModelTextFault>>
    ensures { Reads (λ word. word) reading.read_cell_kind cursor.old result cursor.new }
{
    word(cursor, b"TOTALS")?;
    Ok(OrderWord::Totals)
}

/// Reads a position: a constant, or one that goes by a dimension.
#[tactic(auto, unfolding(crate::specs::Readers::Reading::read_ranked))]
fn ranked_at(
    alloc: Global,
    cursor: &mut Cursor<'_, Unwatched>,
    totals: bool,
) -> Result<OrderWord, Stop<ModelTextFault>>
    ensures { Reads (λ word. word) (reading.read_ranked totals) cursor.old result cursor.new }
{
    if number_comes(cursor) {
        let n = whole(cursor)?;
        Ok(OrderWord::Constant(n))
    } else {
        let shown = name(alloc, cursor)?;
        ranks_at(alloc, cursor, totals, shown)
    }
}

/// Reads a position.
#[derive(Clone, Copy)]
struct OrderPosition {
    /// Whether the word `TOTALS` may stand in it.
    totals: bool,
}

impl Item<OrderWord, ModelTextFault, Unwatched> for OrderPosition {
    ghost use Rattle.model_text.specs.Readers.Reading.{read_position};

    ghost may_read = { λ _. Unit {0} };

    ghost reads = { λ position. read_position position.totals };

    #[tactic(auto, unfolding(crate::specs::Readers::Reading::read_position))]
    fn read(
        &self,
        alloc: Global,
        cursor: &mut Cursor<'_, Unwatched>,
    ) -> Result<OrderWord, Stop<ModelTextFault>> {
        if totals_come(cursor, self.totals) {
            cell_kind_at(cursor)
        } else {
            ranked_at(alloc, cursor, self.totals)
        }
    }
}

/// Reads `TOTALS` behind `AUTO`, if it stands there, and gives whether it does.
#[tactic(auto, unfolding(crate::specs::Readers::Reading::read_auto_totals))]
fn auto_totals_at(
    cursor: &mut Cursor<'_, Unwatched>,
    totals: bool,
) -> Result<bool, Stop<ModelTextFault>>
    ensures { Reads (λ found. found) (reading.read_auto_totals totals) cursor.old result cursor.new }
{
    if totals_come(cursor, totals) {
        word(cursor, b"TOTALS")?;
        Ok(true)
    } else {
        Ok(false)
    }
}

/// Reads the name of the lag behind `AUTO`, if there is one.
#[tactic(auto, unfolding(crate::specs::Readers::Reading::read_lag))]
fn lag_at(
    alloc: Global,
    cursor: &mut Cursor<'_, Unwatched>,
) -> Result<Option<Name>, Stop<ModelTextFault>>
    ensures { Reads (λ lag. lag) reading.read_lag cursor.old result cursor.new }
{
    if text_comes(cursor) {
        let shown = name(alloc, cursor)?;
        Ok(Some(shown))
    } else {
        Ok(None)
    }
}

/// A list of this word alone.
fn alone(alloc: Global, word: OrderWord) -> Result<ListOf<OrderWord>, AllocError>
    ensures { IfOk result (λ words. words ≡ word ∷ []) }
{
    let mut words = Vec::new(alloc);
    words.push(word)?;
    Ok(ListOf::new(words))
}

/// Reads `AUTO [ TOTALS ] [ name ]`.
#[tactic(auto, unfolding(crate::specs::Readers::Reading::read_auto))]
fn auto_at(
    alloc: Global,
    cursor: &mut Cursor<'_, Unwatched>,
    totals: bool,
) -> Result<ListOf<OrderWord>, Stop<ModelTextFault>>
    ensures { Reads (λ words. words) (reading.read_auto totals) cursor.old result cursor.new }
{
    word(cursor, b"AUTO")?;
    let totals = auto_totals_at(cursor, totals)?;
    let lag = lag_at(alloc, cursor)?;
    let words = alone(alloc, OrderWord::Auto { totals, lag })?;
    Ok(words)
}

/// Reads the words of an order line: `AUTO [ TOTALS ] [ name ]` or `position { , position }`.
#[tactic(auto, unfolding(crate::specs::Readers::Reading::read_order_words))]
fn words_at(
    alloc: Global,
    cursor: &mut Cursor<'_, Unwatched>,
    totals: bool,
) -> Result<ListOf<OrderWord>, Stop<ModelTextFault>>
    ensures { Reads (λ words. words) (reading.read_order_words totals) cursor.old result cursor.new }
{
    if word_comes(cursor, b"AUTO") {
        auto_at(alloc, cursor, totals)
    } else {
        listed(alloc, cursor, &OrderPosition { totals })
    }
}

/// Reads the order line of a cube, if there is one, and gives its words: `ORDER`, the words and `;`.
#[tactic(auto, unfolding(crate::specs::Readers::Reading::read_order))]
fn order_at(
    alloc: Global,
    cursor: &mut Cursor<'_, Unwatched>,
    totals: bool,
) -> Result<Option<(Position, ListOf<OrderWord>)>, Stop<ModelTextFault>>
    ensures { Reads (λ order. order) (reading.read_order totals) cursor.old result cursor.new }
{
    if word_comes(cursor, b"ORDER") {
        let position = word(cursor, b"ORDER")?;
        let words = words_at(alloc, cursor, totals)?;
        sign(cursor, b";")?;
        Ok(Some((position, words)))
    } else {
        Ok(None)
    }
}

/// The rule file of a cube and the words of its order line, where they are given, each with its first word's place.
pub type CubeEnd = (
    Option<(Position, ListOf<u8>)>,
    Option<(Position, ListOf<OrderWord>)>,
);

/// Reads the rest of a cube, from the `)` behind its dimensions on, where the word `TOTALS` may stand in it or not.
#[tactic(auto, unfolding(crate::specs::Readers::Reading::read_cube_end))]
pub fn cube_end_at(
    alloc: Global,
    cursor: &mut Cursor<'_, Unwatched>,
    totals: bool,
) -> Result<CubeEnd, Stop<ModelTextFault>>
    ensures { Reads (λ end. CubeEnd end.0 end.1) (reading.read_cube_end totals) cursor.old result cursor.new }
{
    sign(cursor, b")")?;
    sign(cursor, b";")?;
    let rules = rules_at(alloc, cursor)?;
    let order = order_at(alloc, cursor, totals)?;
    word(cursor, b"END")?;
    sign(cursor, b";")?;
    Ok((rules, order))
}

/// The order line of a cube, where its words are given, in a text of this version.
pub fn order_of(
    version: u32,
    order: Option<(Position, ListOf<OrderWord>)>,
) -> Option<(Position, OrderLine)>
    ensures { result ≡ gathering.order_of version order }
{
    match order {
        Some((position, words)) => Some((position, OrderLine { version, words })),
        None => None,
    }
}
