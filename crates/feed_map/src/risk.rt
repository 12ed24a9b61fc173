ghost use Rattle.std.specs.Prelude.{◌≡◌, ℕ, ◌≤◌, ◌⊎◌, true, false, Ok, IfOk, OnOk, length, Contains};
ghost use Rattle.cell_store.specs.Entries.{cells_of};
ghost use Rattle.feed_map.specs.FedCells.{most_fed};
ghost use Rattle.feed_map.specs.Inside.Gains.{Gains, Grows};
ghost use Rattle.feed_map.specs.Inside.Follows.{AreOpened, FeedsFrom};
ghost use Rattle.feed_map.specs.Inside.Risks.{AreAtRisk, AreOutside, HaveRisk, IsAgain, IsAgainOne, IsSure};

use crate::follow::{follow, follow_cells};
use crate::given_up::GivenUp;
use crate::growth::Growth;
use crate::reached::Reached;
use cell_store::{CellSet, PageSet, Store};
use feed_sources::{OutOfSteps, SourceModel, is_fed_from, is_leaf_cell};
use std::alloc::Global;

/// The cells at risk where these went: what they feed, and what a cell at risk feeds, unless it is surely fed.
pub fn at_risk(
    alloc: Global,
    model: &SourceModel,
    base: &PageSet,
    store: &Store,
    went: &[u64],
    steps: &mut u64,
) -> Result<Vec<u64>, GivenUp>
    ensures { IfOk result (λ risk. AreAtRisk model.now base.now store.now went.now risk.items) }
{
    let mut reached = Reached::from(alloc, PageSet::new(alloc), PageSet::new(alloc));
    follow_cells(model, went, &mut reached)?;
    let risk = find_risk(alloc, model, base, store, &mut reached, steps)?;
    Ok(risk)
}

// The cells at risk where these may be.
fn find_risk(
    alloc: Global,
    model: &SourceModel,
    base: &PageSet,
    store: &Store,
    reached: &mut Reached,
    steps: &mut u64,
) -> Result<Vec<u64>, GivenUp>
    requires open { (cell : ℕ) → Contains reached.old.growth.known cell
        → Contains reached.old.growth.opened.items cell }
    requires few { length reached.old.growth.known ≤ most_fed }
    requires totals { AreOpened model.now reached.old.totals reached.old.growth }
    ensures { IfOk result (λ risk. HaveRisk model.now base.now store.now reached.old.growth risk.items) }
{
    let mut risk = Vec::new(alloc);
    let mut place = 0;
    'each: while let Some(cell) = reached.growth.open_at(place)? {
        look_at(model, base, store, cell, reached, &mut risk, steps)?;
        place += 1;
    }
    Ok(risk)
}

// Looks at a cell that may be at risk. Where it is, what it feeds may be too.
fn look_at(
    model: &SourceModel,
    base: &PageSet,
    store: &Store,
    cell: u64,
    reached: &mut Reached,
    risk: &mut Vec<u64>,
    steps: &mut u64,
) -> Result<(), GivenUp>
    requires outside { AreOutside model.now base.now store.now reached.old.growth risk.old.items }
    requires totals { AreOpened model.now reached.old.totals reached.old.growth }
    ensures grows { OnOk result (Grows reached.old.growth reached.new.growth) }
    ensures outside { OnOk result (AreOutside model.now base.now store.now reached.new.growth risk.new.items) }
    ensures looked { OnOk result (IsSure model.now base.now store.now cell ⊎ Contains risk.new.items cell) }
    ensures kept { OnOk result ((other : ℕ) → Contains risk.old.items other → Contains risk.new.items other) }
    ensures totals { OnOk result (AreOpened model.now reached.new.totals reached.new.growth) }
{
    if is_sure(model, base, store, cell, steps)? {
        return Ok(());
    }
    risk.push(cell)?;
    follow(model, cell, reached)?;
    Ok(())
}

// Whether a cell is surely fed: over nothing, or by a stored cell.
fn is_sure(
    model: &SourceModel,
    base: &PageSet,
    store: &Store,
    cell: u64,
    steps: &mut u64,
) -> Result<bool, OutOfSteps>
    ensures sure { result ≡ Ok true → IsSure model.now base.now store.now cell }
    ensures other { result ≡ Ok false → IsSure model.now base.now store.now cell → ⊥ }
{
    if base.has(cell) {
        return Ok(true);
    }
    is_fed(model, store, cell, steps)
}

// Whether a cell of this set feeds the cell.
fn is_fed<W: CellSet>(
    model: &SourceModel,
    live: &W,
    cell: u64,
    steps: &mut u64,
) -> Result<bool, OutOfSteps>
    ensures fed { result ≡ Ok true → FeedsFrom model.now (W.cells live.now) cell }
    ensures none { result ≡ Ok false → FeedsFrom model.now (W.cells live.now) cell → ⊥ }
{
    if !is_leaf_cell(model.space(), cell) {
        return Ok(false);
    }
    is_fed_from(model, live, cell, steps)
}

/// Finds those of the cells at risk that a kept cell feeds.
pub fn add_again(
    model: &SourceModel,
    kept: &PageSet,
    risk: &[u64],
    growth: &mut Growth,
    steps: &mut u64,
) -> Result<(), GivenUp>
    ensures { OnOk result (Gains (IsAgain model.now kept.now risk.now) growth.old growth.new) }
{
    'each: for place in 0..risk.len() {
        add_if_fed(model, kept, risk[place], growth, steps)?;
    }
    Ok(())
}

// Finds the cell, where a kept one feeds it.
fn add_if_fed(
    model: &SourceModel,
    kept: &PageSet,
    cell: u64,
    growth: &mut Growth,
    steps: &mut u64,
) -> Result<(), GivenUp>
    ensures { OnOk result (Gains (IsAgainOne model.now kept.now cell) growth.old growth.new) }
{
    if is_fed(model, kept, cell, steps)? {
        growth.add(cell)?;
    }
    Ok(())
}
