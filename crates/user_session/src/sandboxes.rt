ghost use Rattle.std.specs.Prelude.{◌≡◌};
ghost use Rattle.cell_writes.specs.Writes.{last_writes};
ghost use Rattle.user_session.specs.Layers.{noted};

use crate::command::PlanCommand;
use crate::fixed_writes::{Laid, lay_over};
use crate::reply::{CommandReason, Reply, ReplyText, kept_reply};
use crate::world::{CellWrites, PlanWorld};
use cell_reader::Snapshot;
use cell_writes::last_writes;
use cube_fixed::Money;
use history::World;
use lists::ListOf;
use sandbox::{Layered, Note, Over};
use std::alloc::{AllocError, Global};

/// The writes of the commands in a sandbox, one after another. The last of each cell counts.
pub type KeptWrites = Vec<(u64, Money)>;

impl Layered for PlanWorld {
    ghost use Rattle.cell_writes.specs.Writes.{last_writes};
    ghost use Rattle.user_session.specs.Layers.{sandbox};

    type Layer = KeptWrites;

    ghost sandbox = { sandbox };

    ghost kept_writes = { λ layer. last_writes layer.items };

    fn none(alloc: Global) -> Result<KeptWrites, AllocError> {
        Ok(Vec::new(alloc))
    }

    fn keep(alloc: Global, layer: &mut KeptWrites, writes: &CellWrites) -> Result<(), AllocError> {
        make_room(alloc, layer, writes.as_slice().len())?;
        layer.extend_from_slice(writes.as_slice())?;
        Ok(())
    }

    fn fixed(alloc: Global, layer: &KeptWrites) -> Result<PlanCommand, AllocError> {
        let writes = last_writes(alloc, layer)?;
        Ok(PlanCommand::Fixed(ListOf::new(writes)))
    }

    fn over(
        alloc: Global,
        state: &Snapshot,
        layer: &KeptWrites,
    ) -> Result<Over<Snapshot, ReplyText>, AllocError> {
        let writes = last_writes(alloc, layer)?;
        match lay_over(alloc, state, &writes)? {
            Laid::Over(private) => Ok(Over::Fits(private)),
            Laid::Misfit(reason) => Ok(Over::Unfit(Reply::Refused(reason).text(alloc)?)),
        }
    }

    fn go_on(
        alloc: Global,
        private: &Snapshot,
        writes: &CellWrites,
    ) -> Result<Option<Snapshot>, AllocError> {
        let next = PlanWorld::next(alloc, private, writes)?;
        Ok(Some(next))
    }

    fn note(alloc: Global, note: Note) -> Result<ReplyText, AllocError> {
        noted(note).text(alloc)
    }

    fn kept(alloc: Global, reply: ReplyText) -> Result<ReplyText, AllocError> {
        kept_reply(alloc, reply.as_slice())
    }
}

// Room for so many writes more. Where there is none, the writes that no longer count are dropped first, and there is
// then room for as many again as count: so each write is sorted a few times at most.
fn make_room(alloc: Global, layer: &mut KeptWrites, more: usize) -> Result<(), AllocError>
    ensures { last_writes layer.new.items ≡ last_writes layer.old.items }
{
    if more <= layer.capacity() - layer.len() {
        return Ok(());
    }
    let mut last = last_writes(alloc, layer)?;
    let counting = last.len();
    last.reserve(more.max(counting))?;
    *layer = last;
    Ok(())
}

// The reply to SANDBOX and DISCARD, and to a PUBLISH without a sandbox.
fn noted(note: Note) -> Reply
    ensures { result ≡ noted note }
{
    match note {
        Note::Opened => Reply::Opened,
        Note::AlreadyOpen => Reply::Refused(CommandReason::SandboxOpen),
        Note::NoSandbox => Reply::Refused(CommandReason::NoSandbox),
        Note::Discarded => Reply::Discarded,
    }
}
