ghost use Rattle.std.specs.Prelude.{◌≡◌, IfOk};
ghost use Rattle.grammar.specs.Cursor.{Reads};
ghost use Rattle.rule_tree.specs.Sizes.{IsWithinLimits};
ghost use Rattle.rule_reader.specs.Answers.{Answers};
ghost use Rattle.rule_reader.specs.Readers.TextReading as reading;

use crate::fault::RuleFault;
use crate::feeder::FeederItem;
use crate::statement::StatementItem;
use cube_lex::text_tokens;
use grammar::{Cursor, Stop, TextFault, answer_of_text, repeated, sign, word, word_comes};
use lists::ListOf;
use rule_tree::{Counted, Excess, FeederText, RuleText, RuleTextPlace};
use std::alloc::Global;

/// Reads an optional `SKIPCHECK ;`.
#[tactic(auto, unfolding(crate::specs::Readers::TextReading::read_skipcheck))]
fn skipcheck_at(cursor: &mut Cursor<'_, Counted>) -> Result<bool, Stop<Excess>>
    ensures { Reads (λ skips. skips) reading.read_skipcheck cursor.old result cursor.new }
{
    if word_comes(cursor, b"SKIPCHECK") {
        word(cursor, b"SKIPCHECK")?;
        sign(cursor, b";")?;
        Ok(true)
    } else {
        Ok(false)
    }
}

/// What a text says of feeders.
#[derive(Drop)]
struct Feeding {
    /// Whether `AUTO` stands.
    finds: bool,
    feeders: ListOf<FeederText>,
}

/// Reads an optional `AUTO`.
#[tactic(auto, unfolding(crate::specs::Readers::TextReading::read_automatic))]
fn automatic_at(cursor: &mut Cursor<'_, Counted>) -> Result<bool, Stop<Excess>>
    ensures { Reads (λ finds. finds) reading.read_automatic cursor.old result cursor.new }
{
    if word_comes(cursor, b"AUTO") {
        word(cursor, b"AUTO")?;
        Ok(true)
    } else {
        Ok(false)
    }
}

/// Reads `FEEDERS`, an optional `AUTO` and `;`, and the feeders behind them.
#[tactic(auto, unfolding(crate::specs::Readers::TextReading::read_given_feeders))]
fn given_feeders_at(
    alloc: Global,
    cursor: &mut Cursor<'_, Counted>,
) -> Result<Feeding, Stop<Excess>>
    ensures { Reads (λ it. (it.finds, it.feeders)) reading.read_given_feeders cursor.old result cursor.new }
{
    word(cursor, b"FEEDERS")?;
    let finds = automatic_at(cursor)?;
    sign(cursor, b";")?;
    let feeders = repeated(alloc, cursor, &FeederItem)?;
    Ok(Feeding { finds, feeders })
}

/// Reads what a text says of feeders, if it says anything.
#[tactic(auto, unfolding(crate::specs::Readers::TextReading::read_feeders))]
fn feeding_at(alloc: Global, cursor: &mut Cursor<'_, Counted>) -> Result<Feeding, Stop<Excess>>
    ensures { Reads (λ it. (it.finds, it.feeders)) reading.read_feeders cursor.old result cursor.new }
{
    if word_comes(cursor, b"FEEDERS") {
        given_feeders_at(alloc, cursor)
    } else {
        let feeders = ListOf::new(Vec::new(alloc));
        Ok(Feeding {
            finds: false,
            feeders,
        })
    }
}

/// Reads a whole rule text.
#[tactic(auto, unfolding(crate::specs::Readers::TextReading::read_rules))]
fn rules_at(alloc: Global, cursor: &mut Cursor<'_, Counted>) -> Result<RuleText, Stop<Excess>>
    ensures { Reads (λ rules. rules) reading.read_rules cursor.old result cursor.new }
{
    let skipcheck = skipcheck_at(cursor)?;
    let statements = repeated(alloc, cursor, &StatementItem)?;
    let feeding = feeding_at(alloc, cursor)?;
    Ok(RuleText {
        skipcheck,
        statements,
        finds_feeders: feeding.finds,
        feeders: feeding.feeders,
    })
}

/// Reads the rules of a cube from their text.
pub fn parse(alloc: Global, text: &[u8]) -> Result<RuleText, RuleFault>
    ensures answered { Answers text.now result }
    ensures within { IfOk result IsWithinLimits }
{
    let tokens = text_tokens(text);
    let start = Counted {
        statements: 0,
        feeders: 0,
        feeding: false,
        place: RuleTextPlace::Between,
    };
    let mut cursor = Cursor::new(tokens.left.again(), start);
    let read = rules_at(alloc, &mut cursor);
    match answer_of_text(&tokens, read, &cursor) {
        Ok(rules) => Ok(rules),
        Err(TextFault::Memory) => Err(RuleFault::Memory),
        Err(TextFault::Syntax(position)) => Err(RuleFault::Syntax(position)),
        Err(TextFault::Refused(Excess::TooDeep(position))) => Err(RuleFault::TooDeep(position)),
        Err(TextFault::Refused(Excess::TooMany(position))) => Err(RuleFault::TooMany(position)),
    }
}
