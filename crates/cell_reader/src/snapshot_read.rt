ghost use Rattle.std.specs.Prelude.{◌≡◌, ◌⊎◌, true, IfOk};
ghost use Rattle.cell_values.specs.Reading.{IsKept, IsPlainTotal, IsWorkedOut, MayCount, value_on};
ghost use Rattle.cube_space.specs.Cells.{IsCell};
ghost use Rattle.memo_cells.specs.Knowledge.{Grew, Knows};
ghost use Rattle.cell_reader.specs.Snapshots.{held_in, known_in, version_of};

use crate::snapshot::Snapshot;
use crate::uncounted::uncounted_value;
use cell_source::Cells;
use cell_values::value_of;
use cube_fixed::{Steps, Value};
use std::alloc::{AllocError, Global};
use std::marker::Brand;
use std::sync::ledger::{Blank, Ledger};

impl Snapshot {
    /// The value of a cell by the rules. It doesn't wait. What this reader knows or holds isn't worked out again; each
    /// evaluation of a statement is a step.
    pub fn read<L: Ledger>(
        &mut self,
        alloc: Global,
        cell: u64,
        steps: &mut Steps<L>,
    ) -> Result<Value, AllocError>
        requires { IsCell (version_of self.old).model.space cell }
        ensures value { IfOk result (λ value. value ≡ value_on (version_of self.old) cell) }
        ensures version { version_of self.new ≡ version_of self.old }
        ensures grew { Grew (known_in self.old) (known_in self.new) }

        // when it counts no step, also where memory is wanting
        ensures known { Knows (known_in self.old) cell → steps.new ≡ steps.old }
        ensures held { held_in self.old cell ≡ true → steps.new ≡ steps.old }
        ensures counted { (steps.new ≡ steps.old) ⊎ MayCount (known_in self.old) (known_in self.new) cell }
        ensures plain { IsPlainTotal (version_of self.old) cell → steps.new ≡ steps.old }

        // afterwards the value is kept
        ensures kept { IfOk result (λ _. IsWorkedOut (version_of self.old) cell → IsKept (known_in self.new) cell) }
    {
        value_of(alloc, &self.version, &mut self.memo, cell, steps)
    }

    /// The same where nobody counts the steps.
    pub fn value_at(&mut self, alloc: Global, cell: u64) -> Result<Value, AllocError>
        requires { IsCell (version_of self.old).model.space cell }
        ensures value { IfOk result (λ value. value ≡ value_on (version_of self.old) cell) }
        ensures version { version_of self.new ≡ version_of self.old }
    {
        uncounted_value::<Brand>(Blank::new(1), alloc, &self.version, &mut self.memo, cell)
    }
}

impl Cells for Snapshot {
    ghost use Rattle.cell_values.specs.Reading.{value_on};
    ghost use Rattle.cube_space.specs.Cells.{size_of};
    ghost use Rattle.cell_reader.specs.Snapshots.{version_of};

    ghost Asked = { Unit {0} };

    ghost values = { λ snapshot. value_on (version_of snapshot) };

    ghost size = { λ snapshot. size_of (version_of snapshot).model.space };

    ghost asked = { λ _. tt };

    ghost after_asking = { λ _ _. tt };

    fn value(&mut self, alloc: Global, cell: u64) -> Result<Value, AllocError> {
        self.value_at(alloc, cell)
    }
}
