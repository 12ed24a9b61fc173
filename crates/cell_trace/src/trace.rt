ghost use Rattle.std.specs.Prelude.{◌≡◌, All, IfOk};
ghost use Rattle.cell_reader.specs.Snapshots.{version_of};
ghost use Rattle.cell_trace.specs.Lines.{IsLineOf};
ghost use Rattle.cell_trace.specs.Trace.{scene_of, trace_lines};
ghost use Rattle.cell_values.specs.Reading.{value_on};
ghost use Rattle.cube_space.specs.Cells.{IsCell};

use crate::chain::chain_from;
use crate::here::Here;
use crate::known::{Known, put_own_lines};
use crate::line::Line;
use crate::listing::put_entered;
use cell_reader::Snapshot;
use cube_fixed::Value;
use cube_space::MAX_DIMENSIONS;
use rule_model::place_of;
use std::alloc::{AllocError, Global};

/// The trace of a cell.
#[derive(Drop)]
pub struct Trace {
    /// The cell's value.
    pub value: Value,
    /// Why it has it.
    pub lines: Vec<Line>,
}

/// The trace of a cell of this version. `reader` reads the values of other cells: a snapshot of the same version, which
/// shares what it finds.
pub fn trace_of(
    alloc: Global,
    version: &Snapshot,
    reader: &mut Snapshot,
    cell: u64,
) -> Result<Trace, AllocError>
    requires cell { IsCell (version_of version.now).model.space cell }
    requires same { version_of reader.old ≡ version_of version.now }
    ensures value { IfOk result (λ trace. trace.value ≡ value_on (version_of version.now) cell) }
    ensures lines { IfOk result (λ trace. let v = version_of version.now in
        trace.lines.items ≡ trace_lines (scene_of v.model v.stored cell)) }

    // what they name is there
    ensures names { IfOk result (λ trace.
        All (IsLineOf (version_of version.now).model.space cell) trace.lines.items) }
    ensures version { version_of reader.new ≡ version_of reader.old }
{
    let mut at = [0u32; MAX_DIMENSIONS];
    let (cube, len) = place_of(version.model(), cell, &mut at);
    let here = Here::new(alloc, version, cell, cube, &at[..len]);
    let mut known = Known::new(alloc);
    let chain = chain_from(&here, 0, &mut known, reader)?;
    let value = chain.value;
    let mut lines = Vec::new(alloc);
    put_entered(&here, chain.entered, &mut known, reader, &mut lines)?;
    if chain.takes_own {
        put_own_lines(&here, &mut known, reader, &mut lines)?;
    }
    Ok(Trace { value, lines })
}
