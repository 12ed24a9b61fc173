ghost use Rattle.std.specs.Prelude.{◌≡◌, suc, ◌⊎◌, [], Err, IfOk, IsOkUnless};
ghost use Rattle.std.specs.Arc.{arc_value};
ghost use Rattle.cell_store.specs.Entries.{after_writes};
ghost use Rattle.feed_map.specs.FedCells.{HasFewFed, HasManyFed, IsFeeding, most_fed};
ghost use Rattle.accepted.specs.Checks.{IsAccepted};
ghost use Rattle.cell_versions.specs.LimitAnswers.{AnswersLimits};
ghost use Rattle.cell_versions.specs.Versions.{AreLeafWrites, IsVersion, number_after};

use crate::changes::{added_by, change_by};
use crate::fault::NextFault;
use accepted::Accepted;
use cell_store::Store;
use cube_fixed::Money;
use feed_map::{Fed, FedFault, Feeding};
use rule_model::Model;
use std::alloc::{AllocError, Global};
use std::sync::Arc;

/// A version of the numbers: the stored cells of an accepted model, and the cells that these feed.
#[derive(Drop)]
pub struct Version {
    accepted: Arc<Accepted, Global>,
    number: u64,
    store: Store,
    feeding: Feeding,
}

impl std::marker::Model for Version {
    ghost use Rattle.std.specs.Arc.{arc_value};
    ghost use Rattle.feed_map.specs.FedCells.{HaveLeaves};
    ghost use Rattle.cell_versions.specs.Versions.{NumberedVersion, IsVersion};
    ghost use Rattle.rule_laws.specs.contracts.formula.Formula as formula;
    ghost use Rattle.std.specs.Coded.{codes};

    ghost Value = { NumberedVersion };

    ghost coded = { Prim.hlevel (codes, formula.the_row.coded) };

    ghost view = { λ v. record {
      number = v.number;
      model = arc_value v.accepted;
      stored = v.store;
      fed = v.feeding.fed;
    } };

    ghost invariant = { λ v. IsVersion (arc_value v.accepted) v.store v.feeding.fed
        × HaveLeaves (arc_value v.accepted) v.feeding.totals v.feeding.fed };
}

impl Version {
    /// The version in which nothing is stored. It has the number 0.
    pub fn first(alloc: Global, accepted: Arc<Accepted, Global>) -> Result<Version, AllocError>
        ensures number { IfOk result (λ version. version.number ≡ 0) }
        ensures model { IfOk result (λ version. version.model ≡ arc_value accepted) }
        ensures stored { IfOk result (λ version. version.stored ≡ []) }
    {
        let store = Store::new(alloc);
        let base = accepted.feeding();
        // what is fed says of itself that it is within the limit
        let _few = base.fed.count();
        let feeding = match base.over(alloc, accepted.sources(), &store) {
            Ok(feeding) => feeding,
            Err(FedFault::Memory) => return Err(AllocError),
            Err(FedFault::FedLimit(_)) => unreachable!(),
        };
        Ok(Version {
            accepted,
            number: 0,
            store,
            feeding,
        })
    }

    /// The version after these writes, in their order: a later write of a cell wins, and a written 0 takes the cell
    /// out.
    pub fn next(&self, alloc: Global, writes: &[(u64, Money)]) -> Result<Version, NextFault>
        requires { AreLeafWrites self.now.model.space writes.now }
        ensures number { IfOk result (λ next. next.number ≡ number_after self.now.number) }
        ensures model { IfOk result (λ next. next.model ≡ self.now.model) }
        ensures stored { IfOk result (λ next. next.stored ≡ after_writes self.now.stored writes.now) }

        // each limit is answered exactly where it is passed, out of memory aside
        ensures limits { let stored = after_writes self.now.stored writes.now in AnswersLimits
            (HasFewFed self.now.model stored) (HasManyFed self.now.model stored) stored result }
    {
        let accepted = Arc::try_clone(&self.accepted)?;
        let store = self.store.apply(alloc, writes)?;
        let feeding = self.fed_over(alloc, &store, writes)?;
        Ok(Version {
            accepted,
            number: self.number.saturating_add(1),
            store,
            feeding,
        })
    }

    // What is fed after these writes have made this store. Where they took no cell out that is in the area of a feeder,
    // no more than what was added is followed.
    fn fed_over(
        &self,
        alloc: Global,
        store: &Store,
        writes: &[(u64, Money)],
    ) -> Result<Feeding, FedFault>
        requires { store.now ≡ after_writes self.now.stored writes.now }
        ensures fed { IfOk result (λ feeding. IsFeeding self.now.model store.now feeding.fed feeding.totals) }
        ensures within { HasFewFed self.now.model store.now → IsOkUnless result FedFault.Memory }
        ensures past { HasManyFed self.now.model store.now →
            (result ≡ Err (FedFault.FedLimit (suc most_fed))) ⊎ (result ≡ Err FedFault.Memory) }
    {
        let model = self.accepted.sources();
        match added_by(alloc, model, &self.store, store, writes)? {
            Some(added) => self.feeding.grown(alloc, model, store, &added),
            None => self.fed_changed(alloc, store, writes),
        }
    }

    // The same, where these writes took out a cell that is in the area of a feeder: what that fed alone isn't fed any
    // more.
    fn fed_changed(
        &self,
        alloc: Global,
        store: &Store,
        writes: &[(u64, Money)],
    ) -> Result<Feeding, FedFault>
        requires { store.now ≡ after_writes self.now.stored writes.now }
        ensures fed { IfOk result (λ feeding. IsFeeding self.now.model store.now feeding.fed feeding.totals) }
        ensures within { HasFewFed self.now.model store.now → IsOkUnless result FedFault.Memory }
        ensures past { HasManyFed self.now.model store.now →
            (result ≡ Err (FedFault.FedLimit (suc most_fed))) ⊎ (result ≡ Err FedFault.Memory) }
    {
        let model = self.accepted.sources();
        let base = self.accepted.feeding();
        let before = &self.store;
        let change = change_by(alloc, before, store, writes)?;
        let (went, came) = (change.went.as_slice(), change.came.as_slice());
        self.feeding
            .changed(alloc, base, model, before, store, went, came)
    }

    /// Its number: how many versions are before it.
    pub fn number(&self) -> u64
        ensures { result ≡ self.now.number }
    {
        self.number
    }

    /// The accepted model that it is of.
    pub fn accepted(&self) -> &Arc<Accepted, Global>
        ensures { arc_value result.now ≡ self.now.model }
    {
        &self.accepted
    }

    /// The model.
    pub fn model(&self) -> &Model
        ensures model { result.now ≡ self.now.model }
        ensures accepted { IsAccepted self.now.model }
    {
        self.accepted.model()
    }

    /// The stored cells. Each is a leaf cell.
    pub fn store(&self) -> &Store
        ensures stored { result.now ≡ self.now.stored }
        ensures valid { IsVersion self.now.model self.now.stored self.now.fed }
    {
        &self.store
    }

    /// The fed cells.
    pub fn fed(&self) -> &Fed
        ensures fed { result.now ≡ self.now.fed }
        ensures valid { IsVersion self.now.model self.now.stored self.now.fed }
    {
        &self.feeding.fed
    }
}
