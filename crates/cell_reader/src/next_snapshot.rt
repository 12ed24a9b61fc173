ghost use Rattle.std.specs.Prelude.{◌≡◌, ◌<◌, true, [], ◌∷◌, IfOk};
ghost use Rattle.std.specs.Arc.{arc_value};
ghost use Rattle.cell_store.specs.Entries.{after_writes};
ghost use Rattle.accepted.specs.Checks.{IsAccepted};
ghost use Rattle.cell_values.specs.Reading.{AreValuesOn};
ghost use Rattle.cube_space.specs.Cells.{IsCell, is_leaf_cell};
ghost use Rattle.cell_versions.specs.Versions.{AreLeafWrites, IsVersion, number_after};
ghost use Rattle.memo_cells.specs.Shared.{version_kept};
ghost use Rattle.memo_cells.specs.Values.{cell_value};
ghost use Rattle.cell_reader.specs.Limits.{IsLimitAnswer, IsWithinLimits};
ghost use Rattle.cell_reader.specs.Snapshots.{known_in, memory_of, version_of};

use crate::room::{room_behind, room_of};
use crate::slots::slots_for;
use crate::snapshot::Snapshot;
use crate::sound::is_sound;
use accepted::Accepted;
use cell_store::Store;
use cell_versions::{NextFault, Version};
use cube_fixed::Money;
use feed_map::Fed;
use memo_cells::SharedMemo;
use rule_model::Model;
use std::alloc::{AllocError, Global};
use std::sync::Arc;

impl Snapshot {
    /// The snapshot in which nothing is stored. It has the number 0.
    pub fn first(alloc: Global, accepted: Arc<Accepted, Global>) -> Result<Snapshot, AllocError>
        ensures number { IfOk result (λ first. (version_of first).number ≡ 0) }
        ensures model { IfOk result (λ first. (version_of first).model ≡ arc_value accepted) }
        ensures stored { IfOk result (λ first. (version_of first).stored ≡ []) }
    {
        let version = Version::first(alloc, accepted)?;
        let first = Snapshot::of(alloc, version, 0)?;
        Ok(first)
    }

    /// The snapshot after these writes, in their order: a later write of a cell wins, and a written 0 takes the cell
    /// out. No value is kept with it yet.
    pub fn next(&self, alloc: Global, writes: &[(u64, Money)]) -> Result<Snapshot, NextFault>
        requires { AreLeafWrites (version_of self.now).model.space writes.now }
        ensures number { IfOk result (λ next. (version_of next).number ≡ number_after (version_of self.now).number) }
        ensures model { IfOk result (λ next. (version_of next).model ≡ (version_of self.now).model) }
        ensures stored { IfOk result (λ next.
            (version_of next).stored ≡ after_writes (version_of self.now).stored writes.now) }

        // each limit is answered exactly where it is passed, out of memory aside
        ensures limits { let v = version_of self.now in
            IsLimitAnswer v.model (after_writes v.stored writes.now) result }
    {
        let version = version_after(alloc, &self.version, writes)?;
        let next = Snapshot::of(alloc, version, writes.len())?;
        Ok(next)
    }

    /// The same for writes that pass no limit where none is passed before, as none is: out of memory is the only error.
    pub fn next_within(
        &self,
        alloc: Global,
        writes: &[(u64, Money)],
    ) -> Result<Snapshot, AllocError>
        requires leaves { AreLeafWrites (version_of self.now).model.space writes.now }
        requires within { let v = version_of self.now in
            IsWithinLimits v.model v.stored → IsWithinLimits v.model (after_writes v.stored writes.now) }
        ensures number { IfOk result (λ next. (version_of next).number ≡ number_after (version_of self.now).number) }
        ensures model { IfOk result (λ next. (version_of next).model ≡ (version_of self.now).model) }
        ensures stored { IfOk result (λ next.
            (version_of next).stored ≡ after_writes (version_of self.now).stored writes.now) }
    {
        is_sound(&self.version);
        let version = version_within(alloc, &self.version, writes)?;
        let next = Snapshot::of(alloc, version, writes.len())?;
        Ok(next)
    }

    /// Which limit the version passes that has this number in a leaf cell, if it passes one.
    pub fn check_limits(&self, alloc: Global, cell: u64, number: Money) -> Result<(), NextFault>
        requires cell { IsCell (version_of self.now).model.space cell }
        requires leaf { is_leaf_cell (version_of self.now).model.space cell ≡ true }
        ensures { let v = version_of self.now in
            IsLimitAnswer v.model (after_writes v.stored ((cell, number) ∷ [])) result }
    {
        let room = room_of(&self.version);
        if let Some(_) = room_behind(&self.version, &[], room, cell, number) {
            return Ok(());
        }
        version_after(alloc, &self.version, &[(cell, number)])?;
        Ok(())
    }

    /// The same for another reader, who knows what this one knows, and holds no value for itself yet. It doesn't wait.
    pub fn share(&mut self) -> Result<Snapshot, AllocError>
        ensures version { IfOk result (λ shared. version_of shared ≡ version_of self.old) }
        ensures memory { IfOk result (λ shared. memory_of shared ≡ memory_of self.old) }
        ensures knows { IfOk result (λ shared. known_in shared ≡ known_in self.old) }
        ensures same { version_of self.new ≡ version_of self.old }
        ensures kept { memory_of self.new ≡ memory_of self.old }
        ensures known { known_in self.new ≡ known_in self.old }
    {
        let version = Arc::try_clone(&self.version)?;
        let memo = self.memo.share()?;
        Ok(Snapshot { version, memo })
    }

    // The snapshot of a version that so many writes made, in which no value is kept yet.
    fn of(alloc: Global, version: Version, writes: usize) -> Result<Snapshot, AllocError>
        ensures { IfOk result (λ snapshot. version_of snapshot ≡ version) }
    {
        let slots = slots_for(version.model().space().size(), writes);
        let memo = memory_for(alloc, &version, slots)?;
        let version = Arc::new(alloc, version)?;
        Ok(Snapshot { version, memo })
    }

    /// Its number: how many snapshots are before it.
    pub fn number(&self) -> u64
        ensures { result ≡ (version_of self.now).number }
    {
        self.version.number()
    }

    /// The accepted model that it is of.
    pub fn accepted(&self) -> &Arc<Accepted, Global>
        ensures { arc_value result.now ≡ (version_of self.now).model }
    {
        self.version.accepted()
    }

    /// The model.
    pub fn model(&self) -> &Model
        ensures model { result.now ≡ (version_of self.now).model }
        ensures accepted { IsAccepted (version_of self.now).model }
    {
        self.version.model()
    }

    /// The stored cells. Each is a leaf cell.
    pub fn store(&self) -> &Store
        ensures stored { result.now ≡ (version_of self.now).stored }
        ensures valid { let v = version_of self.now in IsVersion v.model v.stored v.fed }
    {
        self.version.store()
    }

    /// The fed cells.
    pub fn fed(&self) -> &Fed
        ensures fed { result.now ≡ (version_of self.now).fed }
        ensures valid { let v = version_of self.now in IsVersion v.model v.stored v.fed }
    {
        self.version.fed()
    }
}

/// A memory of so many slots for the values on a version. None is kept yet.
pub(crate) fn memory_for(
    alloc: Global,
    version: &Version,
    slots: u32,
) -> Result<SharedMemo, AllocError>
    requires { 0 < slots }
    ensures { IfOk result (λ memo. AreValuesOn version.now (cell_value (version_kept memo))) }
{
    let memo = SharedMemo::new(
        alloc,
        version.model(),
        version.store(),
        version.number(),
        slots,
    )?;
    Ok(memo)
}

/// The version after these writes.
pub(crate) fn version_after(
    alloc: Global,
    version: &Version,
    writes: &[(u64, Money)],
) -> Result<Version, NextFault>
    requires { AreLeafWrites version.now.model.space writes.now }
    ensures number { IfOk result (λ next. next.number ≡ number_after version.now.number) }
    ensures model { IfOk result (λ next. next.model ≡ version.now.model) }
    ensures stored { IfOk result (λ next. next.stored ≡ after_writes version.now.stored writes.now) }
    ensures limits { IsLimitAnswer version.now.model (after_writes version.now.stored writes.now) result }
{
    is_sound(version);
    version.next(alloc, writes)
}

/// The version after these writes, which pass no limit: out of memory is the only error.
pub(crate) fn version_within(
    alloc: Global,
    version: &Version,
    writes: &[(u64, Money)],
) -> Result<Version, AllocError>
    requires leaves { AreLeafWrites version.now.model.space writes.now }
    requires within { IsWithinLimits version.now.model (after_writes version.now.stored writes.now) }
    ensures number { IfOk result (λ next. next.number ≡ number_after version.now.number) }
    ensures model { IfOk result (λ next. next.model ≡ version.now.model) }
    ensures stored { IfOk result (λ next. next.stored ≡ after_writes version.now.stored writes.now) }
{
    match version_after(alloc, version, writes) {
        Ok(next) => Ok(next),
        Err(NextFault::Memory) => Err(AllocError),
        Err(NextFault::StoreLimit(_)) | Err(NextFault::FedLimit(_)) => unreachable!(),
    }
}
