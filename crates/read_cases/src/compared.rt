ghost use Rattle.std.specs.Prelude.{◌≡◌, ◌<◌, IfOk, IsTrue};
ghost use Rattle.cell_reader.specs.Snapshots.{known_in, version_of};
ghost use Rattle.cell_values.specs.Reading.{value_on};
ghost use Rattle.cube_space.specs.Cells.{IsCell};
ghost use Rattle.memo_cells.specs.Knowledge.{Knows};
ghost use Rattle.rule_dense.specs.Limits.{HasSmallCubes, IsLow};

use cell_reader::Snapshot;
use check_order::check_order;
use cube_fixed::{Steps, Value};
use rule_dense::{MAX_CUBE_CELLS, dense};
use rule_model::{Model, governing};
use std::alloc::{AllocError, Global};
use std::marker::Brand;
use std::sync::ledger::{Blank, Ledger};

/// Tells how many cells a snapshot has, where it, another one that shares what it keeps, and plain evaluation give each
/// the same value; else the first cell to which they don't.
pub fn compared(
    alloc: Global,
    snapshot: &mut Snapshot,
    told: &mut Vec<u8>,
) -> Result<(), AllocError> {
    let cells = snapshot.model().space().size();
    if check_order(alloc, snapshot.model()).is_err() || !has_small_cubes(snapshot.model()) {
        return Ok(told.extend_from_slice(b"too large to be evaluated plainly")?);
    }
    let line = match first_difference(alloc, snapshot)? {
        None => format!(in alloc; "{cells} cells agree")?,
        Some(cell) => format!(in alloc; "cell {cell} is read otherwise")?,
    };
    Ok(told.extend_from_slice(line.as_bytes())?)
}

fn has_small_cubes(model: &Model) -> bool
    ensures { IsTrue result → HasSmallCubes model.now.space }
{
    for cube in 0..model.space().cubes() {
        if model.space().cells(cube) > MAX_CUBE_CELLS {
            return false;
        }
    }
    true
}

// The first cell that isn't given the same value by all.
fn first_difference(alloc: Global, snapshot: &mut Snapshot) -> Result<Option<u64>, AllocError>
    requires low { IsLow (version_of snapshot.old).model }
    requires small { HasSmallCubes (version_of snapshot.old).model.space }
{
    counted_difference::<Brand>(Blank::new(1), alloc, snapshot)
}

// The same, and who has a blank counts the steps. The early reader is one that shared before any cell was read.
fn counted_difference<L: Ledger>(
    blank: Blank,
    alloc: Global,
    snapshot: &mut Snapshot,
) -> Result<Option<u64>, AllocError>
    requires name { blank.name ≡ L.name }
    requires parts { blank.parts ≡ L.parts }
    requires some { 0 < L.parts }
    requires low { IsLow (version_of snapshot.old).model }
    requires small { HasSmallCubes (version_of snapshot.old).model.space }
{
    let mut steps = Steps::<L>::begin(blank);
    let mut early = snapshot.share()?;
    'each: for cell in 0..snapshot.model().space().size() {
        let plain = dense(alloc, snapshot.model(), snapshot.store(), cell)?;
        let read = snapshot.read(alloc, cell, &mut steps)?;
        let found = found_by_another(alloc, snapshot, cell, &mut steps)?;
        if read != plain || found != plain || early.value_at(alloc, cell)? != plain {
            return Ok(Some(cell));
        }
    }
    Ok(None)
}

// The value that another reader finds who shares what this one keeps. Where this one knows it, that is no step more.
fn found_by_another<L: Ledger>(
    alloc: Global,
    snapshot: &mut Snapshot,
    cell: u64,
    steps: &mut Steps<L>,
) -> Result<Value, AllocError>
    requires { IsCell (version_of snapshot.old).model.space cell }
    ensures value { IfOk result (λ value. value ≡ value_on (version_of snapshot.old) cell) }
    ensures none { Knows (known_in snapshot.old) cell → steps.new ≡ steps.old }
    ensures version { version_of snapshot.new ≡ version_of snapshot.old }
{
    let mut other = snapshot.share()?;
    other.read(alloc, cell, steps)
}
