ghost use Rattle.std.specs.Arc.{arc_value};
ghost use Rattle.std.specs.Coded.{codes};
ghost use Rattle.memo_cells.specs.Seats.{IsAt, version_of};
ghost use Rattle.memo_cells.specs.HeldValues.{AreRight};
ghost use Rattle.memo_cells.specs.contracts.version.Version as version;

use crate::memo::Memo;
use crate::seat::MemoSeat;
use cube_fixed::Value;
use std::alloc::Global;
use std::collections::BTreeMap;
use std::sync::Arc;

/// A memo that several readers share, with the seat of one of them, and what that one has worked out of cells whose
/// slots are for other cells.
#[derive(Drop)]
pub struct SharedMemo {
    pub(crate) memo: Arc<Memo, Global>,
    pub(crate) seat: MemoSeat,
    pub(crate) held: BTreeMap<u64, Value>,
    pub(crate) alloc: Global,
    ghost at: { IsAt (arc_value memo) seat } by { Prim.hlevel (codes, version.the_row.coded) },
    ghost right: { AreRight (version_of (arc_value memo)) held } by { Prim.hlevel (codes, version.the_row.coded) },
}
