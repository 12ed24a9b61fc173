ghost use Rattle.std.specs.Prelude.{◌≡◌, IfOk};
ghost use Rattle.user_session.specs.Content.{content_of};
ghost use Rattle.user_session.specs.Planning.{named_cell, trace_effect};

use crate::get_command::read;
use crate::reply::{CommandReason, Reply};
use crate::world::PlanEffect;
use cell_reader::Snapshot;
use history::Effect;
use lists::ListOf;
use rule_model::cell_of;
use std::alloc::{AllocError, Global};
use user_text::CellText;

/// The effect of a TRACE: why its cell has its value. `files` has the name of the rule file of each cube.
pub(crate) fn trace(
    alloc: Global,
    state: &mut Snapshot,
    files: &ListOf<ListOf<u8>>,
    text: &CellText,
) -> Result<PlanEffect, AllocError>
    ensures effect { IfOk result (λ found. found
        ≡ trace_effect (content_of state.old) files.now (named_cell (content_of state.old).model text.now)) }
    ensures kept { content_of state.new ≡ content_of state.old }
{
    match cell_of(state.model(), &text.cube, text.elements.as_slice()) {
        Some(cell) => {
            let mut reader = state.share()?;
            let lines = trace_text::trace(alloc, state, &mut reader, files.as_slice(), cell)?;
            Ok(Effect::Read(ListOf::new(lines)))
        }
        None => read(alloc, Reply::Refused(CommandReason::UnknownName)),
    }
}
