ghost use Rattle.std.specs.Prelude.{◌≡◌, ◌<◌, IfOk};
ghost use Rattle.cube_space.specs.Cells.{IsCell};
ghost use Rattle.rule_laws.specs.RuleSystem.{dense_value};
ghost use Rattle.rule_model.specs.System.{system_of};
ghost use Rattle.stored_laws.specs.Stored.{stored_in};
ghost use Rattle.cell_reader.specs.Inside.After.{KeepsValues};

use cell_values::value_of;
use cell_versions::Version;
use cube_fixed::{Steps, Value};
use memo_cells::SharedMemo;
use std::alloc::{AllocError, Global};
use std::sync::ledger::{Blank, Ledger};

/// The value of a cell of a version by the rules, where nobody counts the steps: they are counted in a ledger of
/// their own.
pub(crate) fn uncounted_value<L: Ledger>(
    blank: Blank,
    alloc: Global,
    version: &Version,
    memo: &mut SharedMemo,
    cell: u64,
) -> Result<Value, AllocError>
    requires name { blank.name ≡ L.name }
    requires parts { blank.parts ≡ L.parts }
    requires some { 0 < L.parts }
    requires cell { IsCell version.now.model.space cell }
    requires values { KeepsValues version.now memo.old }
    ensures value { IfOk result
        (λ value. value ≡ dense_value (system_of version.now.model) (stored_in version.now.stored) cell) }
    ensures values { KeepsValues version.now memo.new }
{
    let mut steps = Steps::<L>::begin(blank);
    value_of(alloc, version, memo, cell, &mut steps)
}
