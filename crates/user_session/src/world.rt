use crate::command::PlanCommand;
use crate::content::Content;
use crate::fixed_writes::fixed;
use crate::get_command::get;
use crate::load_command::load;
use crate::put_command::put;
use crate::reply::ReplyText;
use crate::spread_command::spread;
use crate::trace_command::trace;
use crate::view_command::view;
use cell_reader::Snapshot;
use cube_fixed::{Money, Value};
use history::{Effect, World};
use lists::ListOf;
use std::alloc::{AllocError, Global};

/// The writes of an accepted command: each cell with its new number, in millionths, by the numbers of the cells. A 0
/// takes the cell out of the store.
pub type CellWrites = ListOf<(u64, Money)>;

/// What a command does.
pub(crate) type PlanEffect = Effect<CellWrites, ReplyText>;

/// The world of a planner's commands.
pub struct PlanWorld;

impl World for PlanWorld {
    ghost use Rattle.user_session.specs.Content.{after, content_of};
    ghost use Rattle.user_session.specs.Planning.{cell_value, effect};

    type State = Snapshot;

    type Content = Content;

    type Command = PlanCommand;

    type Reply = ReplyText;

    type Writes = CellWrites;

    type Value = Value;

    ghost content = { content_of };

    ghost effect = { effect };

    ghost after = { after };

    ghost cell_value = { cell_value };

    fn share(_alloc: Global, state: &mut Snapshot) -> Result<Snapshot, AllocError> {
        state.share()
    }

    fn attempt(
        alloc: Global,
        state: &mut Snapshot,
        command: &PlanCommand,
    ) -> Result<PlanEffect, AllocError> {
        match command {
            PlanCommand::Put(cell, number) => put(alloc, state, cell, *number),
            PlanCommand::Get(cell) => get(alloc, state, cell),
            PlanCommand::Load(job, script) => load(alloc, state, job, script),
            PlanCommand::View(text) => view(alloc, state, text),
            PlanCommand::Spread(cell, amount, how) => spread(alloc, state, cell, *amount, *how),
            PlanCommand::Trace(cell, files) => trace(alloc, state, files, cell),
            PlanCommand::Fixed(writes) => fixed(alloc, state, writes),
        }
    }

    fn next(alloc: Global, state: &Snapshot, writes: &CellWrites) -> Result<Snapshot, AllocError> {
        state.next_within(alloc, writes.as_slice())
    }
}
