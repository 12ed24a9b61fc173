ghost use Rattle.std.specs.Prelude.{◌≡◌, IfOk};
ghost use Rattle.user_session.specs.Content.{content_of};
ghost use Rattle.user_session.specs.Planning.{how_of, named_cell, spread_effect};

use crate::reply::{CommandReason, rejected_spread};
use crate::world::PlanEffect;
use crate::writes::{rejected, written};
use cell_reader::Snapshot;
use cell_spread::How;
use cube_fixed::Money;
use history::Effect;
use rule_model::cell_of;
use std::alloc::{AllocError, Global};
use user_text::{CellText, SpreadWord};

/// The effect of a SPREAD: the writes of the leaf cells below its cell, or why it isn't accepted.
pub(crate) fn spread(
    alloc: Global,
    state: &Snapshot,
    text: &CellText,
    amount: Money,
    how: SpreadWord,
) -> Result<PlanEffect, AllocError>
    ensures { IfOk result (λ found. found
        ≡ spread_effect (content_of state.now) (named_cell (content_of state.now).model text.now) amount how) }
{
    let model = state.model();
    let Some(cell) = cell_of(model, &text.cube, text.elements.as_slice()) else {
        return rejected(alloc, CommandReason::UnknownName);
    };
    match cell_spread::spread(alloc, model, state.store(), cell, amount, how_of(how)) {
        Ok(writes) => written(alloc, state, writes),
        Err(fault) => {
            let reply = rejected_spread(alloc, fault)?;
            Ok(Effect::Rejected(reply))
        }
    }
}

// What each leaf cell below gets, by the word of the command.
fn how_of(how: SpreadWord) -> How
    ensures { result ≡ how_of how }
{
    match how {
        SpreadWord::Equal => How::Equal,
        SpreadWord::Proportional => How::Proportional,
    }
}
