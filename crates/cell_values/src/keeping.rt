ghost use Rattle.std.specs.Prelude.{◌≡◌, IfSome};
ghost use Rattle.cell_values.specs.Reading.{AreValuesOn, IsKept, value_on};
ghost use Rattle.cube_space.specs.Cells.{IsCell};
ghost use Rattle.memo_cells.specs.Knowledge.{Grew};

use crate::sound::is_sound;
use cell_versions::Version;
use cube_fixed::Value;
use memo_cells::{Look, Memory};

/// The value that is remembered of a cell.
pub(crate) fn remembered<M: Memory>(version: &Version, memory: &mut M, cell: u64) -> Option<Value>
    requires { IsCell version.now.model.space cell }
    ensures value { IfSome result (λ v. v ≡ M.values memory.old cell) }
    ensures values { M.values memory.new ≡ M.values memory.old }
    ensures grew { Grew (M.known memory.old) (M.known memory.new) }
{
    is_sound(version);
    match memory.look(cell) {
        Look::Value(value) => Some(value),
        _ => memory.recall(cell),
    }
}

/// Takes the place of a cell's value, before those of the cells under it are kept.
pub(crate) fn reserve<M: Memory>(version: &Version, memory: &mut M, cell: u64)
    requires { IsCell version.now.model.space cell }
    ensures values { M.values memory.new ≡ M.values memory.old }
    ensures grew { Grew (M.known memory.old) (M.known memory.new) }
{
    is_sound(version);
    memory.reserve(cell);
}

/// Keeps the value of a cell.
pub(crate) fn keep<M: Memory>(version: &Version, memory: &mut M, cell: u64, value: &Value)
    requires cell { IsCell version.now.model.space cell }
    requires values { AreValuesOn version.now (M.values memory.old) }
    requires value { value.now ≡ value_on version.now cell }
    ensures kept { IsKept (M.known memory.new) cell }
    ensures values { M.values memory.new ≡ M.values memory.old }
    ensures grew { Grew (M.known memory.old) (M.known memory.new) }
{
    is_sound(version);
    // a value that there is no memory for is worked out again
    let _ = memory.keep(cell, value);
}
