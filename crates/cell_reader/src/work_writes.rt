ghost use Rattle.std.specs.Prelude.{◌≡◌, true, pos, [], ◌∷◌, ◌++◌, OnOk, OnErr};
ghost use Rattle.std.specs.Arc.{arc_value};
ghost use Rattle.cube_space.specs.Cells.{IsCell, is_leaf_cell};
ghost use Rattle.cell_reader.specs.Limits.{IsLimitAnswer, IsWithinLimits};
ghost use Rattle.cell_reader.specs.Works.{opening_of, stored_after, writes_of};
ghost use Rattle.cell_reader.specs.Inside.After.{IsAfter};

use crate::last_numbers::with_write;
use crate::next_snapshot::{version_after, version_within};
use crate::room::{room_behind, room_of};
use crate::sound::is_sound;
use crate::work::Work;
use cell_versions::{NextFault, Version};
use cube_fixed::Money;
use std::alloc::{AllocError, Global};
use std::sync::Arc;

impl Work {
    /// Writes a number into a leaf cell. A refused write changes nothing.
    pub fn put(&mut self, alloc: Global, cell: u64, number: Money) -> Result<(), NextFault>
        requires cell { IsCell (opening_of self.old).model.space cell }
        requires leaf { is_leaf_cell (opening_of self.old).model.space cell ≡ true }
        ensures opening { opening_of self.new ≡ opening_of self.old }
        ensures written { OnOk result (writes_of self.new ≡ writes_of self.old ++ (cell, number) ∷ []) }
        ensures same { OnErr result (writes_of self.new ≡ writes_of self.old) }

        // the answer is a limit exactly where this write passes it, out of memory aside
        ensures limits { IsLimitAnswer (opening_of self.old).model
            (stored_after self.old (writes_of self.old ++ (cell, number) ∷ [])) result }
    {
        let waiting = &self.written[self.made..];
        if let Some(room) = room_behind(&self.latest, waiting, self.room, cell, number) {
            let numbers = with_write(self.numbers.take(), cell, number)?;
            self.written.extend_from_slice(&[(cell, number)])?;
            self.numbers = numbers;
            self.room = room;
            return Ok(());
        }
        self.settle(alloc)?;
        let next = version_after(alloc, &self.latest, &[(cell, number)])?;
        self.go_on(alloc, next, &[(cell, number)])?;
        Ok(())
    }

    /// Writes a 0 into a leaf cell. It passes no limit.
    pub fn clear(&mut self, alloc: Global, cell: u64) -> Result<(), AllocError>
        requires cell { IsCell (opening_of self.old).model.space cell }
        requires leaf { is_leaf_cell (opening_of self.old).model.space cell ≡ true }
        ensures opening { opening_of self.new ≡ opening_of self.old }
        ensures written { OnOk result (writes_of self.new ≡ writes_of self.old ++ (cell, pos 0) ∷ []) }
        ensures same { OnErr result (writes_of self.new ≡ writes_of self.old) }
        ensures within { IsWithinLimits (opening_of self.old).model
            (stored_after self.old (writes_of self.old ++ (cell, pos 0) ∷ [])) }
    {
        is_sound(&self.opening);
        match self.put(alloc, cell, Money::ZERO) {
            Ok(()) => Ok(()),
            Err(NextFault::Memory) => Err(AllocError),
            Err(NextFault::StoreLimit(_)) | Err(NextFault::FedLimit(_)) => unreachable!(),
        }
    }

    /// Makes the version with the writes that wait.
    pub(crate) fn settle(&mut self, alloc: Global) -> Result<(), AllocError>
        ensures opening { opening_of self.new ≡ opening_of self.old }
        ensures writes { writes_of self.new ≡ writes_of self.old }
        ensures settled { let latest = arc_value self.new.latest in
            OnOk result (IsAfter (opening_of self.new) (writes_of self.new) latest.model latest.stored) }
    {
        let waiting = &self.written[self.made..];
        if waiting.is_empty() {
            return Ok(());
        }
        let next = version_within(alloc, &self.latest, waiting)?;
        self.go_on(alloc, next, &[])
    }

    // Goes on with the version after all writes, and these more.
    fn go_on(
        &mut self,
        alloc: Global,
        next: Version,
        more: &[(u64, Money)],
    ) -> Result<(), AllocError>
        requires { IsAfter (opening_of self.old) (writes_of self.old ++ more.now) next.model next.stored }
        ensures opening { opening_of self.new ≡ opening_of self.old }
        ensures written { OnOk result (writes_of self.new ≡ writes_of self.old ++ more.now) }
        ensures same { OnErr result (writes_of self.new ≡ writes_of self.old) }
        ensures settled { let latest = arc_value self.new.latest in
            OnOk result (IsAfter (opening_of self.new) (writes_of self.new) latest.model latest.stored) }
    {
        let room = room_of(&next);
        let latest = Arc::new(alloc, next)?;
        self.numbers = None;
        self.written.extend_from_slice(more)?;
        self.latest = latest;
        self.made = self.written.len();
        self.room = room;
        self.memo = None;
        Ok(())
    }
}
