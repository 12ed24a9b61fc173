ghost use Rattle.std.specs.Prelude.{◌≡◌, IfOk};
ghost use Rattle.user_session.specs.Content.{content_of};
ghost use Rattle.user_session.specs.Planning.{get_effect, named_cell};
ghost use Rattle.user_session.specs.Replies.{reply_text};
ghost use Rattle.history.specs.declared.effect.Effect.TheVariants.{Read};

use crate::reply::{CommandReason, Reply};
use crate::world::PlanEffect;
use cell_reader::Snapshot;
use history::Effect;
use rule_model::cell_of;
use std::alloc::{AllocError, Global};
use user_text::CellText;

/// The effect of a GET: the value of its cell.
pub(crate) fn get(
    alloc: Global,
    state: &mut Snapshot,
    text: &CellText,
) -> Result<PlanEffect, AllocError>
    ensures effect { IfOk result (λ found. found
        ≡ get_effect (content_of state.old) (named_cell (content_of state.old).model text.now)) }
    ensures kept { content_of state.new ≡ content_of state.old }
{
    match cell_of(state.model(), &text.cube, text.elements.as_slice()) {
        Some(cell) => {
            let value = state.value_at(alloc, cell)?;
            read(alloc, Reply::Found(value))
        }
        None => read(alloc, Reply::Refused(CommandReason::UnknownName)),
    }
}

/// The effect of a reading command that is replied this.
pub(crate) fn read(alloc: Global, reply: Reply) -> Result<PlanEffect, AllocError>
    ensures { IfOk result (λ found. found ≡ Read (reply_text reply)) }
{
    let text = reply.text(alloc)?;
    Ok(Effect::Read(text))
}
