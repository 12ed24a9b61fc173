ghost use Rattle.std.specs.Prelude.{◌≡◌, IfOk};
ghost use Rattle.cell_reader.specs.Limits.{IsLimitAnswer};
ghost use Rattle.cell_store.specs.Entries.{after_writes};
ghost use Rattle.cell_versions.specs.Versions.{AreLeafWrites};
ghost use Rattle.user_session.specs.Content.{content_of};
ghost use Rattle.user_session.specs.Planning.{committed, rejected, write_effect};

use crate::reply::{CommandReason, Reply};
use crate::world::PlanEffect;
use cell_reader::{NextFault, Snapshot};
use cube_fixed::Money;
use history::Effect;
use lists::ListOf;
use std::alloc::{AllocError, Global};

/// The effect of writes into leaf cells that take numbers: they are committed, unless more than may be are stored or
/// fed with them.
pub(crate) fn written(
    alloc: Global,
    state: &Snapshot,
    writes: Vec<(u64, Money)>,
) -> Result<PlanEffect, AllocError>
    requires { AreLeafWrites (content_of state.now).model.space writes.items }
    ensures { IfOk result (λ found. found ≡ write_effect (content_of state.now) writes.items) }
{
    match check_limits(alloc, state, &writes) {
        Ok(()) => committed(alloc, writes),
        Err(NextFault::StoreLimit(_)) => rejected(alloc, CommandReason::StoreLimit),
        Err(NextFault::FedLimit(_)) => rejected(alloc, CommandReason::FedLimit),
        Err(NextFault::Memory) => Err(AllocError),
    }
}

// Which limit the version passes that these writes make, if it passes one. For one write it is rarely made.
fn check_limits(alloc: Global, state: &Snapshot, writes: &[(u64, Money)]) -> Result<(), NextFault>
    requires { AreLeafWrites (content_of state.now).model.space writes.now }
    ensures { let content = content_of state.now in
        IsLimitAnswer content.model (after_writes content.stored writes.now) result }
{
    match writes {
        [(cell, number)] => state.check_limits(alloc, *cell, *number),
        _ => {
            state.next(alloc, writes)?;
            Ok(())
        }
    }
}

/// The effect of a command that isn't accepted, for this reason.
pub(crate) fn rejected(alloc: Global, reason: CommandReason) -> Result<PlanEffect, AllocError>
    ensures { IfOk result (λ found. found ≡ rejected reason) }
{
    let reply = Reply::Rejected(reason).text(alloc)?;
    Ok(Effect::Rejected(reply))
}

/// The effect of a command that is accepted with these writes.
pub(crate) fn committed(alloc: Global, writes: Vec<(u64, Money)>) -> Result<PlanEffect, AllocError>
    ensures { IfOk result (λ found. found ≡ committed writes.items) }
{
    let reply = Reply::Committed(writes.len() as u64).text(alloc)?;
    Ok(Effect::Commit(ListOf::new(writes), reply))
}
