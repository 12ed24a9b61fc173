ghost use Rattle.std.specs.Prelude.{◌≡◌, None, IfOk};
ghost use Rattle.history.specs.Version.{content_after};
ghost use Rattle.layers.specs.Layered.{IsLayeredHistoryOf};
ghost use Rattle.user_session.specs.Content.{after, content_of, opening};
ghost use Rattle.user_session.specs.Layers.{answer};

use accepted::Accepted;
use cell_reader::Snapshot;
use cube_outside::Gate;
use lists::ListOf;
use sandbox::Act;
use sessions::{Served, serve};
use std::alloc::{AllocError, Global};
use std::sync::{Arc, Wait};
use std::thread::Threads;
use user_session::{CellWrites, PlanCommand, PlanWorld, ReplyText};

/// Runs the acts of each user on a thread of its own. At the start nothing is stored, and no sandbox is open.
pub(crate) fn serve_users<R: Threads + Wait + Sync, G: Gate + Sync>(
    rt: &R,
    alloc: Global,
    gate: &G,
    model: Accepted,
    users: ListOf<ListOf<Act<PlanCommand>>>,
) -> Result<Served<PlanWorld>, AllocError>
    ensures history { IfOk result (λ served.
        IsLayeredHistoryOf answer after (opening model) None users served.told.items served.log.items) }
    ensures state { IfOk result (λ served.
        content_of served.state ≡ content_after after (opening model) served.log.items) }
{
    let opening = Snapshot::first(alloc, Arc::new(alloc, model)?)?;
    serve::<PlanWorld, R, G>(rt, alloc, gate, opening, users.into_vec())
}
