ghost use Rattle.std.specs.Arc.{arc_value};
ghost use Rattle.std.specs.Coded.{codes};
ghost use Rattle.memo_cells.specs.contracts.version.Version as kept;
ghost use Rattle.cell_reader.specs.Inside.After.{KeepsValues};

use cell_versions::Version;
use memo_cells::SharedMemo;
use std::alloc::Global;
use std::sync::Arc;

/// A version of the numbers, and a memory for the values of its cells that readers share.
#[derive(Drop)]
pub struct Snapshot {
    pub(crate) version: Arc<Version, Global>,
    pub(crate) memo: SharedMemo,
    ghost values: { KeepsValues (arc_value version) memo } by { Prim.hlevel (codes, kept.the_row.coded) },
}
