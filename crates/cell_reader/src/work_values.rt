ghost use Rattle.std.specs.Prelude.{◌≡◌, true, [], All, IfOk};
ghost use Rattle.cell_store.specs.Entries.{number_at};
ghost use Rattle.cell_versions.specs.Versions.{AreLeafWrites};
ghost use Rattle.cube_space.specs.Cells.{IsCell, is_leaf_cell};
ghost use Rattle.rule_laws.specs.RuleSystem.{dense_value};
ghost use Rattle.rule_model.specs.System.{system_of};
ghost use Rattle.stored_laws.specs.Stored.{stored_in};
ghost use Rattle.cell_reader.specs.Snapshots.{known_in, memory_of, version_of};
ghost use Rattle.cell_reader.specs.StoredBelow.{stored_below};
ghost use Rattle.cell_reader.specs.Works.{opening_of, stored_after, writes_of};
ghost use Rattle.cell_writes.specs.Writes.{last_writes};

use crate::last_numbers::{last_numbers, number_after};
use crate::mark::Mark;
use crate::next_snapshot::memory_for;
use crate::room::room_of;
use crate::snapshot::Snapshot;
use crate::stored_below::stored_below;
use crate::uncounted::uncounted_value;
use crate::ungoverned::is_ungoverned_leaf;
use crate::work::{WORK_SLOTS, Work};
use cell_writes::last_writes;
use cube_fixed::{Money, Value};
use rule_model::Model;
use std::alloc::{AllocError, Global};
use std::marker::Brand;
use std::sync::Arc;
use std::sync::ledger::Blank;

impl Work {
    /// The work of a load that begins with this snapshot.
    pub fn over(alloc: Global, snapshot: &mut Snapshot) -> Result<Work, AllocError>
        ensures opening { IfOk result (λ work. opening_of work ≡ version_of snapshot.old) }
        ensures writes { IfOk result (λ work. writes_of work ≡ []) }
        ensures same { version_of snapshot.new ≡ version_of snapshot.old }
        ensures memory { memory_of snapshot.new ≡ memory_of snapshot.old }
        ensures known { known_in snapshot.new ≡ known_in snapshot.old }
    {
        let room = room_of(&snapshot.version);
        let opening = Arc::try_clone(&snapshot.version)?;
        let latest = Arc::try_clone(&snapshot.version)?;
        let marked = Mark::of(&snapshot.version, 0)?;
        let memo = snapshot.memo.share()?;
        Ok(Work {
            opening,
            latest,
            memo: Some(memo),
            written: Vec::new(alloc),
            made: 0,
            room,
            numbers: None,
            marked,
        })
    }

    /// The value of a cell by the rules, on what is stored after the writes so far.
    pub fn get(&mut self, alloc: Global, cell: u64) -> Result<Value, AllocError>
        requires { IsCell (opening_of self.old).model.space cell }
        ensures value { IfOk result (λ value. value ≡ dense_value (system_of (opening_of self.old).model)
            (stored_in (stored_after self.old (writes_of self.old))) cell) }
        ensures opening { opening_of self.new ≡ opening_of self.old }
        ensures writes { writes_of self.new ≡ writes_of self.old }
    {
        if is_ungoverned_leaf(&self.opening, cell) {
            return Ok(Value::Num(self.stored_number(alloc, cell)?));
        }
        self.settle(alloc)?;
        let mut memo = match self.memo.take() {
            Some(memo) => memo,
            None => memory_for(alloc, &self.latest, WORK_SLOTS)?,
        };
        let value = uncounted_value::<Brand>(Blank::new(1), alloc, &self.latest, &mut memo, cell);
        self.memo = Some(memo);
        value
    }

    // What is stored in a cell after the writes so far: the last number that those which wait write into it, or else
    // what the latest version has. No version is made.
    fn stored_number(&mut self, alloc: Global, cell: u64) -> Result<Money, AllocError>
        ensures number { IfOk result (λ number.
            number ≡ number_at (stored_after self.old (writes_of self.old)) cell) }
        ensures opening { opening_of self.new ≡ opening_of self.old }
        ensures writes { writes_of self.new ≡ writes_of self.old }
    {
        if self.made == self.written.len() {
            return Ok(self.latest.store().get(cell));
        }
        let kept = self.numbers.take();
        let numbers = last_numbers(alloc, kept, &self.written[self.made..])?;
        let number = number_after(self.latest.store(), &numbers, cell);
        self.numbers = Some(numbers);
        Ok(number)
    }

    /// The leaf cells that are stored after the writes so far and count in a cell, rising. A leaf cell counts in
    /// itself.
    pub fn stored_below(&mut self, alloc: Global, cell: u64) -> Result<Vec<u64>, AllocError>
        requires { IsCell (opening_of self.old).model.space cell }
        ensures cells { IfOk result (λ cells. cells.items ≡ stored_below (opening_of self.old).model.space
            (stored_after self.old (writes_of self.old)) cell) }
        ensures leaves { let space = (opening_of self.old).model.space in
            IfOk result (λ cells. All (λ one. IsCell space one × (is_leaf_cell space one ≡ true)) cells.items) }
        ensures opening { opening_of self.new ≡ opening_of self.old }
        ensures writes { writes_of self.new ≡ writes_of self.old }
    {
        self.settle(alloc)?;
        let cells = stored_below(alloc, self.latest.model(), self.latest.store(), cell)?;
        Ok(cells)
    }

    /// The model.
    pub fn model(&self) -> &Model
        ensures { result.now ≡ (opening_of self.now).model }
    {
        self.opening.model()
    }

    /// What the load has written: for each cell its last number, by the numbers of the cells.
    pub fn writes(self, alloc: Global) -> Result<Vec<(u64, Money)>, AllocError>
        ensures writes { IfOk result (λ writes. writes.items ≡ last_writes (writes_of self)) }
        ensures leaves { AreLeafWrites (opening_of self).model.space (writes_of self) }
    {
        last_writes(alloc, &self.written)
    }
}
