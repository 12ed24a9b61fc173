ghost use Rattle.std.specs.Prelude.{drop};
ghost use Rattle.std.specs.Arc.{arc_value};
ghost use Rattle.std.specs.Coded.{codes};
ghost use Rattle.std.proofs.Props.{props};
ghost use Rattle.memo_cells.specs.contracts.version.Version as kept;
ghost use Rattle.rule_laws.specs.contracts.formula.Formula as formula;
ghost use Rattle.cell_reader.specs.Inside.After.{AreLast, HasValues, IsAhead, IsMark};

use crate::mark::Mark;
use crate::room::Room;
use cell_versions::Version;
use cube_fixed::Money;
use memo_cells::SharedMemo;
use std::alloc::Global;
use std::collections::BTreeMap;
use std::sync::Arc;

/// Into how many slots the cells of a version fall that a load has made. They are few, since each write makes a new
/// memory: what has no slot the load holds for itself.
pub(crate) const WORK_SLOTS: u32 = 256;

/// A version with the writes of a load so far. It sees its own writes.
///
/// Writes wait while no limit can be passed, and a written 0 always: the version with them is made when a governed cell
/// or a total is read, or a limit is near. Any other leaf cell is read without it.
#[derive(Drop)]
pub struct Work {
    pub(crate) opening: Arc<Version, Global>,
    /// The version with the writes that don't wait, and a memory for its values; none after a write, until one is read.
    pub(crate) latest: Arc<Version, Global>,
    pub(crate) memo: Option<SharedMemo>,
    pub(crate) written: Vec<(u64, Money)>,
    /// How many of the writes the latest version has. The others wait.
    pub(crate) made: usize,
    /// How many more cells may be added before a version has to be made.
    pub(crate) room: Room,
    /// The last number that the waiting writes have for each of their cells; none before a read has asked for one.
    pub(crate) numbers: Option<BTreeMap<u64, Money>>,
    /// Where the load marked its writes last.
    pub(crate) marked: Mark,
    ghost ahead: { IsAhead opening latest written.items made room } by { Prim.hlevel (codes, formula.the_row.coded) },
    ghost last: { AreLast (drop made written.items) numbers } by { Prim.hlevel (codes, props) },
    ghost first: { IsMark (arc_value opening) written.items marked } by { Prim.hlevel (codes, formula.the_row.coded) },
    ghost values: { HasValues (arc_value latest) memo } by { Prim.hlevel (codes, kept.the_row.coded) },
}
