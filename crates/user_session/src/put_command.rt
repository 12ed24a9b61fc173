ghost use Rattle.std.specs.Prelude.{◌≡◌, IfOk};
ghost use Rattle.user_session.specs.Content.{content_of};
ghost use Rattle.user_session.specs.Planning.{named_cell, put_effect, reason_of};

use crate::reply::CommandReason;
use crate::world::PlanEffect;
use crate::writes::{rejected, written};
use cell_reader::{Closed, Snapshot, why_closed};
use cube_fixed::Money;
use rule_model::cell_of;
use std::alloc::{AllocError, Global};
use user_text::CellText;

/// The effect of a PUT: its one write, or why it isn't accepted.
pub(crate) fn put(
    alloc: Global,
    state: &Snapshot,
    text: &CellText,
    number: Money,
) -> Result<PlanEffect, AllocError>
    ensures { IfOk result (λ found. found
        ≡ put_effect (content_of state.now) (named_cell (content_of state.now).model text.now) number) }
{
    let model = state.model();
    let Some(cell) = cell_of(model, &text.cube, text.elements.as_slice()) else {
        return rejected(alloc, CommandReason::UnknownName);
    };
    match why_closed(model, cell) {
        Some(closed) => rejected(alloc, reason_of(closed)),
        None => {
            let writes = vec![in alloc; (cell, number)]?;
            written(alloc, state, writes)
        }
    }
}

// Why a command that writes into a closed cell is rejected.
fn reason_of(closed: Closed) -> CommandReason
    ensures { result ≡ reason_of closed }
{
    match closed {
        Closed::NotALeaf => CommandReason::NotALeaf,
        Closed::RuleDerived => CommandReason::RuleDerived,
    }
}
