ghost use Rattle.std.specs.Prelude.{◌≡◌, ℕ, suc, ◌≤◌, ◌⊎◌, [], Ok, Err, IfOk, IfErr, IsOkUnless, length, All, Contains};
ghost use Rattle.cell_store.specs.Cells.{IsUnion};
ghost use Rattle.cell_store.specs.Entries.{cells_of};
ghost use Rattle.feed_map.specs.FedCells.{AreFedCells, HasFewFed, HasManyFed, IsFeeding, IsStoredChange};
ghost use Rattle.feed_map.specs.FedCells.{most_fed, without};
ghost use Rattle.feed_map.specs.Inside.Follows.{IsReach};

use crate::dense::add_dense;
use crate::fault::FedFault;
use crate::follow::{follow_cells, follow_opened, follow_stored};
use crate::given_up::GivenUp;
use crate::reached::Reached;
use crate::risk::{add_again, at_risk};
use cell_store::{CellSet, PageSet, Store};
use feed_sources::SourceModel;
use std::alloc::{AllocError, Global};

// How many steps a change may take however few cells are stored.
const FREE_STEPS: u64 = 1_000;

/// The fed cells of a version: the leaf cells that may have a value other than 0 though nothing is stored in them.
///
/// They are the leaf cells of dense cubes, and the ends of the chains of feeds that begin at a stored cell or at a leaf
/// cell of a dense cube (feeders of TM1 Rules).
#[derive(Drop)]
pub struct Fed {
    cells: PageSet,
}

impl std::marker::Model for Fed {
    ghost use Rattle.std.specs.Prelude.{List, ℕ, ◌≤◌, length};
    ghost use Rattle.feed_map.specs.FedCells.{most_fed};

    ghost Value = { List ℕ };

    ghost view = { λ f. f.cells };

    ghost invariant = { λ f. length f.cells ≤ most_fed };
}

impl Fed {
    /// How many cells are fed.
    pub fn count(&self) -> u64
        ensures count { result ≡ length self.now }
        ensures within { result ≤ most_fed }
    {
        self.cells.len()
    }
}

/// What is fed over what is stored: the fed cells, and totals that feeders name, whose leaf cells are all among them.
///
/// Such a total is opened once, as long as it is kept here.
#[derive(Drop)]
pub struct Feeding {
    pub fed: Fed,
    pub totals: PageSet,
}

impl Feeding {
    /// What is fed over what is stored. There may be 4,000,000 fed cells; where there are more, `FedLimit(4_000_001)`
    /// says so.
    ///
    /// It follows each stored cell and each fed one once.
    pub fn of(alloc: Global, model: &SourceModel, store: &Store) -> Result<Feeding, FedFault>
        ensures fed { IfOk result (λ feeding. IsFeeding model.now store.now feeding.fed feeding.totals) }
        ensures within { HasFewFed model.now store.now → IsOkUnless result FedFault.Memory }

        // past the limit that is the answer, and no other fault but out of memory
        ensures past { HasManyFed model.now store.now →
            (result ≡ Err (FedFault.FedLimit (suc most_fed))) ⊎ (result ≡ Err FedFault.Memory) }
        ensures fault { IfErr result (λ fault. (fault ≡ FedFault.Memory)
            ⊎ ((fault ≡ FedFault.FedLimit (suc most_fed)) × HasManyFed model.now store.now)) }
    {
        let reached = all_fed(alloc, model, store)?;
        Ok(Feeding::from(reached))
    }

    /// What is fed over what is stored, where this is what is fed over nothing. It answers what [`Feeding::of`]
    /// answers, and lists no dense cube.
    pub fn over(
        &self,
        alloc: Global,
        model: &SourceModel,
        store: &Store,
    ) -> Result<Feeding, FedFault>
        requires { IsFeeding model.now [] self.now.fed self.now.totals }
        ensures fed { IfOk result (λ feeding. IsFeeding model.now store.now feeding.fed feeding.totals) }
        ensures within { HasFewFed model.now store.now → IsOkUnless result FedFault.Memory }
        ensures past { HasManyFed model.now store.now →
            (result ≡ Err (FedFault.FedLimit (suc most_fed))) ⊎ (result ≡ Err FedFault.Memory) }
        ensures fault { IfErr result (λ fault. (fault ≡ FedFault.Memory)
            ⊎ ((fault ≡ FedFault.FedLimit (suc most_fed)) × HasManyFed model.now store.now)) }
    {
        let reached = fed_over(alloc, model, store, &self.fed.cells, &self.totals)?;
        Ok(Feeding::from(reached))
    }

    /// What is fed over a store that has these cells more than one over which this is fed. It answers what
    /// [`Feeding::of`] answers of the whole store, and follows just the added cells and those that are newly fed.
    pub fn grown(
        &self,
        alloc: Global,
        model: &SourceModel,
        store: &Store,
        added: &[u64],
    ) -> Result<Feeding, FedFault>
        requires stored { All (Contains (cells_of store.now)) added.now }
        requires before { IsFeeding model.now (without store.now added.now) self.now.fed self.now.totals }
        ensures fed { IfOk result (λ feeding. IsFeeding model.now store.now feeding.fed feeding.totals) }
        ensures within { HasFewFed model.now store.now → IsOkUnless result FedFault.Memory }
        ensures past { HasManyFed model.now store.now →
            (result ≡ Err (FedFault.FedLimit (suc most_fed))) ⊎ (result ≡ Err FedFault.Memory) }
        ensures fault { IfErr result (λ fault. (fault ≡ FedFault.Memory)
            ⊎ ((fault ≡ FedFault.FedLimit (suc most_fed)) × HasManyFed model.now store.now)) }
    {
        let reached = more_fed(alloc, model, store, &self.fed.cells, &self.totals, added)?;
        Ok(Feeding::from(reached))
    }

    /// What is fed after a change of what is stored, where this is what was fed before it, and `base` what is fed over
    /// nothing. It answers what [`Feeding::of`] answers of the later store. Where that is little, it looks just at what
    /// the cells that went and came feed.
    pub fn changed(
        &self,
        alloc: Global,
        base: &Feeding,
        model: &SourceModel,
        before: &Store,
        after: &Store,
        went: &[u64],
        came: &[u64],
    ) -> Result<Feeding, FedFault>
        requires change { IsStoredChange before.now after.now went.now came.now }
        requires before { IsFeeding model.now before.now self.now.fed self.now.totals }
        requires base { IsFeeding model.now [] base.now.fed base.now.totals }
        ensures fed { IfOk result (λ feeding. IsFeeding model.now after.now feeding.fed feeding.totals) }
        ensures within { HasFewFed model.now after.now → IsOkUnless result FedFault.Memory }
        ensures past { HasManyFed model.now after.now →
            (result ≡ Err (FedFault.FedLimit (suc most_fed))) ⊎ (result ≡ Err FedFault.Memory) }
        ensures fault { IfErr result (λ fault. (fault ≡ FedFault.Memory)
            ⊎ ((fault ≡ FedFault.FedLimit (suc most_fed)) × HasManyFed model.now after.now)) }
    {
        let (base_cells, cells) = (&base.fed.cells, &self.fed.cells);
        match regrown(
            alloc,
            model,
            base_cells,
            cells,
            &self.totals,
            before,
            after,
            went,
            came,
        ) {
            Ok(reached) => Ok(Feeding::from(reached)),
            Err(_) => base.over(alloc, model, after),
        }
    }

    fn from(reached: Reached) -> Feeding
        requires { length reached.growth.known ≤ most_fed }
        ensures fed { result.fed ≡ reached.growth.known }
        ensures totals { result.totals ≡ reached.totals }
    {
        let (growth, totals) = (reached.growth, reached.totals);
        Feeding {
            fed: Fed {
                cells: growth.known,
            },
            totals,
        }
    }
}

// What is fed over what is stored.
fn all_fed(alloc: Global, model: &SourceModel, store: &Store) -> Result<Reached, FedFault>
    ensures { IsReach model.now store.now result }
{
    let mut found = Reached::from(alloc, PageSet::new(alloc), PageSet::new(alloc));
    add_dense(alloc, model.model(), &mut found.growth)?;
    follow_stored(model, store, &mut found)?;
    follow_opened(model, &mut found)?;
    Ok(found)
}

// What is fed over what is stored, by what is over nothing.
fn fed_over(
    alloc: Global,
    model: &SourceModel,
    store: &Store,
    fed: &PageSet,
    totals: &PageSet,
) -> Result<Reached, FedFault>
    requires before { IsFeeding model.now [] fed.now totals.now }
    requires few { length fed.now ≤ most_fed }
    ensures { IsReach model.now store.now result }
{
    let mut reached = begun(alloc, fed, totals)?;
    follow_stored(model, store, &mut reached)?;
    follow_opened(model, &mut reached)?;
    Ok(reached)
}

// What is fed over what is stored, by what is without these stored cells.
fn more_fed(
    alloc: Global,
    model: &SourceModel,
    store: &Store,
    fed: &PageSet,
    totals: &PageSet,
    added: &[u64],
) -> Result<Reached, FedFault>
    requires stored { All (Contains (cells_of store.now)) added.now }
    requires before { IsFeeding model.now (without store.now added.now) fed.now totals.now }
    requires few { length fed.now ≤ most_fed }
    ensures { IsReach model.now store.now result }
{
    let mut reached = begun(alloc, fed, totals)?;
    follow_cells(model, added, &mut reached)?;
    follow_opened(model, &mut reached)?;
    Ok(reached)
}

// These cells are known, and these totals opened.
fn begun(alloc: Global, fed: &PageSet, totals: &PageSet) -> Result<Reached, AllocError>
    ensures known { IfOk result (λ reached. IsUnion fed.now [] reached.growth.known) }
    ensures opened { IfOk result (λ reached. reached.growth.opened.items ≡ []) }
    ensures found { IfOk result (λ reached. reached.growth.found.items ≡ []) }
    ensures totals { IfOk result (λ reached. IsUnion totals.now [] reached.totals) }
{
    let known = fed.with(alloc, &[])?;
    let opened = totals.with(alloc, &[])?;
    Ok(Reached::from(alloc, known, opened))
}

// What is fed after a change, by what was fed before it and what is fed over nothing. It is given up where it needs
// more steps than [`FREE_STEPS`] and one for each stored and each fed cell.
fn regrown(
    alloc: Global,
    model: &SourceModel,
    base: &PageSet,
    fed: &PageSet,
    totals: &PageSet,
    before: &Store,
    after: &Store,
    went: &[u64],
    came: &[u64],
) -> Result<Reached, GivenUp>
    requires change { IsStoredChange before.now after.now went.now came.now }
    requires before { IsFeeding model.now before.now fed.now totals.now }
    requires base { AreFedCells model.now [] base.now }
    requires few { length fed.now ≤ most_fed }
    ensures { IfOk result (λ reached. IsReach model.now after.now (Ok reached)) }
{
    let mut steps = FREE_STEPS
        .saturating_add(before.len())
        .saturating_add(fed.len());
    let risk = at_risk(alloc, model, base, after, went, &mut steps)?;
    let kept = fed.without(alloc, &risk)?;
    let totals = totals_left(alloc, totals, &risk)?;
    let mut reached = Reached::from(alloc, kept.with(alloc, &[])?, totals);
    add_again(model, &kept, &risk, &mut reached.growth, &mut steps)?;
    follow_cells(model, came, &mut reached)?;
    follow_opened(model, &mut reached)?;
    Ok(reached)
}

// The totals that stay opened where these cells are taken out: all where there are none.
fn totals_left(alloc: Global, totals: &PageSet, risk: &[u64]) -> Result<PageSet, AllocError>
    ensures { IfOk result (λ left. (total : ℕ) → Contains left total
        → Contains totals.now total × (risk.now ≡ [])) }
{
    if risk.is_empty() {
        return totals.with(alloc, &[]);
    }
    Ok(PageSet::new(alloc))
}

impl CellSet for Fed {
    ghost cells = { λ set. set };

    fn next_from(&self, cell: u64) -> Option<u64> {
        self.cells.next_from(cell)
    }
}
