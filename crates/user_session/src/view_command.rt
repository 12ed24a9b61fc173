ghost use Rattle.std.specs.Prelude.{◌≡◌, IfOk};
ghost use Rattle.user_session.specs.Content.{content_of};
ghost use Rattle.user_session.specs.Planning.{view_effect};

use crate::reply::refused_view;
use crate::world::PlanEffect;
use cell_reader::Snapshot;
use history::Effect;
use lists::ListOf;
use std::alloc::{AllocError, Global};
use user_text::ViewText;
use view_query::bind;

/// The effect of a VIEW: its table.
pub(crate) fn view(
    alloc: Global,
    state: &mut Snapshot,
    text: &ViewText,
) -> Result<PlanEffect, AllocError>
    ensures effect { IfOk result (λ found. found ≡ view_effect (content_of state.old) text.now) }
    ensures kept { content_of state.new ≡ content_of state.old }
{
    // it is read by a state of its own, whose values this one finds
    let mut reader = state.share()?;
    let model = state.model();
    match bind(alloc, model, text) {
        Ok(view) => {
            let table = view_query::view(alloc, model.space(), &view, &mut reader)?;
            Ok(Effect::Read(ListOf::new(table)))
        }
        Err(fault) => {
            let text = refused_view(alloc, fault)?;
            Ok(Effect::Read(text))
        }
    }
}
