ghost use Rattle.std.specs.Prelude.{◌≡◌, ◌≤◌, length, take, IfOk, OnOk};
ghost use Rattle.std.specs.Arc.{arc_value};
ghost use Rattle.cell_reader.specs.Limits.{IsWithinLimits};
ghost use Rattle.cell_reader.specs.Works.{opening_of, stored_after, writes_of};
ghost use Rattle.cell_reader.specs.Inside.After.{IsAfter, IsMark};

use crate::mark::Mark;
use crate::next_snapshot::version_within;
use crate::room::room_of;
use crate::work::Work;
use cell_versions::Version;
use std::alloc::{AllocError, Global};
use std::sync::Arc;

impl Work {
    /// Marks the writes so far, which pass no limit, so that going back to them is quick. Gives how many they are.
    pub fn mark(&mut self) -> Result<usize, AllocError>
        ensures count { IfOk result (λ count. count ≡ length (writes_of self.old)) }
        ensures within { IsWithinLimits (opening_of self.old).model (stored_after self.old (writes_of self.old)) }
        ensures opening { opening_of self.new ≡ opening_of self.old }
        ensures writes { writes_of self.new ≡ writes_of self.old }
    {
        if self.marked.made != self.made {
            self.marked = Mark::of(&self.latest, self.made)?;
        }
        Ok(self.written.len())
    }

    /// Takes back all writes but the first so many, which pass no limit. It costs what was written since the mark,
    /// where no fewer writes were marked than stay.
    pub fn back(&mut self, alloc: Global, count: usize) -> Result<(), AllocError>
        requires within { IsWithinLimits (opening_of self.old).model
            (stored_after self.old (take count (writes_of self.old))) }
        ensures opening { opening_of self.new ≡ opening_of self.old }
        ensures writes { OnOk result (writes_of self.new ≡ take count (writes_of self.old)) }
    {
        if self.written.len() <= count {
            return Ok(());
        }
        let first = self.first_of(count)?;
        let version = self.with_writes(alloc, first, count)?;
        let marked = Mark::of(&version, count)?;
        let room = room_of(&version);
        self.numbers = None;
        self.memo = None;
        self.marked = marked;
        self.latest = version;
        self.made = count;
        self.room = room;
        self.written.truncate(count);
        Ok(())
    }

    // The latest version that has none but the first so many writes.
    fn first_of(&self, count: usize) -> Result<Mark, AllocError>
        ensures few { IfOk result (λ first. first.made ≤ count) }
        ensures first { IfOk result (IsMark (opening_of self.now) (writes_of self.now)) }
    {
        if self.made <= count {
            Mark::of(&self.latest, self.made)
        } else if self.marked.made <= count {
            Mark::of(&self.marked.version, self.marked.made)
        } else {
            Mark::of(&self.opening, 0)
        }
    }

    // The version that goes on from there and has the first so many writes.
    fn with_writes(
        &self,
        alloc: Global,
        first: Mark,
        count: usize,
    ) -> Result<Arc<Version, Global>, AllocError>
        requires first { IsMark (opening_of self.now) (writes_of self.now) first }
        requires few { first.made ≤ count }
        requires count { count ≤ length (writes_of self.now) }
        requires within { IsWithinLimits (opening_of self.now).model
            (stored_after self.now (take count (writes_of self.now))) }
        ensures { IfOk result (λ version. let after = arc_value version in
            IsAfter (opening_of self.now) (take count (writes_of self.now)) after.model after.stored) }
    {
        let more = &self.written[first.made..count];
        if more.is_empty() {
            return Ok(first.version);
        }
        let next = version_within(alloc, &first.version, more)?;
        let version = Arc::new(alloc, next)?;
        Ok(version)
    }
}
