ghost use Rattle.std.specs.Prelude.{◌≡◌};
ghost use Rattle.grammar.specs.Cursor.{Reads};
ghost use Rattle.rule_reader.specs.Readers.TextReading as reading;

use crate::area::area_at;
use crate::bracket::bracket_at;
use crate::formula::FormulaItem;
use grammar::{Cursor, Item, RepeatedItem, Stop, listed, sign, sign_comes, word};
use rule_tree::{Counted, Excess, FeederText, TargetText};
use std::alloc::Global;

/// Reads `DB ( formula { , formula } )`.
#[tactic(auto, unfolding(crate::specs::Readers::TextReading::read_database))]
fn database_at(alloc: Global, cursor: &mut Cursor<'_, Counted>) -> Result<TargetText, Stop<Excess>>
    ensures { Reads (λ target. target) reading.read_database cursor.old result cursor.new }
{
    word(cursor, b"DB")?;
    sign(cursor, b"(")?;
    let arguments = listed(alloc, cursor, &FormulaItem)?;
    sign(cursor, b")")?;
    Ok(TargetText::Db(arguments))
}

/// A target, as an item of a list.
struct TargetItem;

impl Item<TargetText, Excess, Counted> for TargetItem {
    ghost use Rattle.rule_reader.specs.Readers.TextReading.{read_target};

    ghost may_read = { λ _. Unit {0} };

    ghost reads = { λ _. read_target };

    #[tactic(auto, unfolding(crate::specs::Readers::TextReading::read_target))]
    fn read(
        &self,
        alloc: Global,
        cursor: &mut Cursor<'_, Counted>,
    ) -> Result<TargetText, Stop<Excess>> {
        if sign_comes(cursor, b"[") {
            let simples = bracket_at(alloc, cursor)?;
            Ok(TargetText::Bracket(simples))
        } else {
            database_at(alloc, cursor)
        }
    }
}

/// A feeder, which begins with the `[` of its area.
pub struct FeederItem;

impl RepeatedItem<FeederText, Excess, Counted> for FeederItem {
    ghost use Rattle.std.specs.Prelude.{codes};
    ghost use Rattle.grammar.specs.Tokens.{is_sign};
    ghost use Rattle.rule_reader.specs.Readers.TextReading.{read_feeder};

    ghost may_repeat = { λ _. Unit {0} };

    ghost begins = { λ _. is_sign (codes "[") };

    ghost reads_next = { λ _. read_feeder };

    fn comes(&self, cursor: &Cursor<'_, Counted>) -> bool {
        sign_comes(cursor, b"[")
    }

    #[tactic(auto, unfolding(crate::specs::Readers::TextReading::read_feeder))]
    fn read_next(
        &self,
        alloc: Global,
        cursor: &mut Cursor<'_, Counted>,
    ) -> Result<FeederText, Stop<Excess>> {
        let area = area_at(alloc, cursor)?;
        sign(cursor, b"=>")?;
        let targets = listed(alloc, cursor, &TargetItem)?;
        sign(cursor, b";")?;
        Ok(FeederText { area, targets })
    }
}
