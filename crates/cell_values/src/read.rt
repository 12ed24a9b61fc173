ghost use Rattle.std.specs.Prelude.{◌≡◌, ◌⊎◌, true, false, Some, IfOk};
ghost use Rattle.cell_values.specs.Reading.{AreValuesOn, IsKept, IsPlainTotal, IsUngoverned, IsWorkedOut, MayCount};
ghost use Rattle.cell_values.specs.Reading.{value_on};
ghost use Rattle.cell_values.specs.Inside.Origins.{IsOrigin};
ghost use Rattle.cube_space.specs.Cells.{IsCell, is_leaf_cell};
ghost use Rattle.memo_cells.specs.Knowledge.{Grew, Knows};
ghost use Rattle.rule_laws.specs.RuleSystem.{dense_value};
ghost use Rattle.rule_model.specs.Governing.{governing_from};
ghost use Rattle.rule_model.specs.System.{system_of};
ghost use Rattle.stored_laws.specs.Stored.{stored_in};

use crate::begins::evaluation;
use crate::frames::{Frame, LeafSum};
use crate::keeping::{keep, reserve};
use crate::machine::Reader;
use crate::origin::Origin;
use crate::sound::is_sound;
use crate::told::origin_of;
use cell_versions::Version;
use cube_fixed::{Steps, Value};
use memo_cells::{Look, Memory};
use rule_evaluate::Ask;
use solver::{Opened, answer};
use std::alloc::{AllocError, Global};
use std::sync::ledger::Ledger;

/// The value of a cell on a version. The memory has values on that version alone. It fails only when out of memory.
///
/// What the memory knows or holds is not worked out again, and what is worked out is kept there. Each evaluation of a
/// statement is one step; a sum over cells is none, nor is a statement that gives a number alone.
pub fn value_of<M: Memory, L: Ledger>(
    alloc: Global,
    version: &Version,
    memory: &mut M,
    cell: u64,
    steps: &mut Steps<L>,
) -> Result<Value, AllocError>
    requires cell { IsCell version.now.model.space cell }
    requires values { AreValuesOn version.now (M.values memory.old) }
    ensures value { IfOk result
        (λ v. v ≡ dense_value (system_of version.now.model) (stored_in version.now.stored) cell) }
    ensures values { M.values memory.new ≡ M.values memory.old }
    ensures grew { Grew (M.known memory.old) (M.known memory.new) }

    // also where memory is wanting
    ensures known { Knows (M.known memory.old) cell → steps.new ≡ steps.old }
    ensures held { M.holds memory.old cell ≡ true → steps.new ≡ steps.old }
    ensures counted { (steps.new ≡ steps.old) ⊎ MayCount (M.known memory.old) (M.known memory.new) cell }
    ensures plain { IsPlainTotal version.now cell → steps.new ≡ steps.old }

    // afterwards it is kept
    ensures kept { IfOk result (λ _. IsWorkedOut version.now cell → IsKept (M.known memory.new) cell) }
{
    is_sound(version);
    if let Look::Value(value) = memory.look(cell) {
        return Ok(value);
    }
    if let Some(value) = memory.recall(cell) {
        keep(version, memory, cell, &value);
        return Ok(value);
    }
    match origin_of(version, cell) {
        Origin::Stored(value) => Ok(value),
        origin => {
            reserve(version, memory, cell);
            let value = computed(alloc, version, memory, cell, origin, steps)?;
            keep(version, memory, cell, &value);
            Ok(value)
        }
    }
}

// The value of a cell that comes from there.
fn computed<M: Memory, L: Ledger>(
    alloc: Global,
    version: &Version,
    memory: &mut M,
    cell: u64,
    origin: Origin,
    steps: &mut Steps<L>,
) -> Result<Value, AllocError>
    requires cell { IsCell version.now.model.space cell }
    requires origin { IsOrigin version.now cell origin }
    requires values { AreValuesOn version.now (M.values memory.old) }
    ensures value { IfOk result (λ v. v ≡ value_on version.now cell) }
    ensures values { M.values memory.new ≡ M.values memory.old }
    ensures grew { Grew (M.known memory.old) (M.known memory.new) }
    ensures plain { IsPlainTotal version.now cell → steps.new ≡ steps.old }
{
    match origin {
        Origin::Stored(value) => Ok(value),
        Origin::Plain(value) => Ok(value),
        Origin::Statement(statement) => governed_value(
            alloc, version, memory, cell, statement, steps,
        ),
        Origin::Leaves => total(alloc, version, memory, cell, steps),
    }
}

// The value of a cell that this statement governs.
fn governed_value<M: Memory, L: Ledger>(
    alloc: Global,
    version: &Version,
    memory: &mut M,
    cell: u64,
    statement: u32,
    steps: &mut Steps<L>,
) -> Result<Value, AllocError>
    requires cell { IsCell version.now.model.space cell }
    requires governs { governing_from version.now.model cell 0 ≡ Some statement }
    requires values { AreValuesOn version.now (M.values memory.old) }
    ensures value { IfOk result (λ v. v ≡ value_on version.now cell) }
    ensures values { M.values memory.new ≡ M.values memory.old }
    ensures grew { Grew (M.known memory.old) (M.known memory.new) }
{
    let mut reader = Reader::new(alloc, version);
    let frame = evaluation(alloc, version, cell, statement, reader.list());
    answer(&mut reader, memory, steps, alloc, frame, Ask::Value(cell))
}

// The value of a consolidated cell that no statement governs. Nothing is evaluated where each leaf cell below it is
// known or ungoverned.
fn total<M: Memory, L: Ledger>(
    alloc: Global,
    version: &Version,
    memory: &mut M,
    cell: u64,
    steps: &mut Steps<L>,
) -> Result<Value, AllocError>
    requires cell { IsCell version.now.model.space cell }
    requires consolidated { is_leaf_cell version.now.model.space cell ≡ false }
    requires ungoverned { IsUngoverned version.now cell }
    requires values { AreValuesOn version.now (M.values memory.old) }
    ensures value { IfOk result (λ v. v ≡ value_on version.now cell) }
    ensures values { M.values memory.new ≡ M.values memory.old }
    ensures grew { Grew (M.known memory.old) (M.known memory.new) }
    ensures plain { IsPlainTotal version.now cell → steps.new ≡ steps.old }
{
    is_sound(version);
    let mut sum = LeafSum::new(version, cell);
    match sum.go_on(version, memory) {
        Some(leaf) => {
            let mut reader = Reader::new(alloc, version);
            let value = worked_out(&mut reader, alloc, memory, leaf, steps)?;
            sum.walk.add(sum.weight, value);
            answer(
                &mut reader,
                memory,
                steps,
                alloc,
                Frame::Leaves(sum),
                Ask::Value(cell),
            )
        }
        None => Ok(sum.walk.value()),
    }
}

// The value of a cell, which is kept.
fn worked_out<M: Memory, L: Ledger>(
    reader: &mut Reader,
    alloc: Global,
    memory: &mut M,
    cell: u64,
    steps: &mut Steps<L>,
) -> Result<Value, AllocError>
    requires cell { IsCell reader.old.version.now.model.space cell }
    requires values { AreValuesOn reader.old.version.now (M.values memory.old) }
    ensures value { IfOk result (λ v. v ≡ value_on reader.old.version.now cell) }
    ensures version { reader.new.version.now ≡ reader.old.version.now }
    ensures values { M.values memory.new ≡ M.values memory.old }
    ensures grew { Grew (M.known memory.old) (M.known memory.new) }
{
    let value = match reader.begin(cell) {
        Opened::Known(value) => value,
        Opened::Begun(frame) => answer(reader, memory, steps, alloc, frame, Ask::Value(cell))?,
    };
    keep(reader.version, memory, cell, &value);
    Ok(value)
}
