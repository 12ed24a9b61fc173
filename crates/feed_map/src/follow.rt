ghost use Rattle.std.specs.Prelude.{◌≡◌, ℕ, ◌<◌, ◌≤◌, [], true, false, IfErr, OnOk, All, length};
ghost use Rattle.cube_space.specs.Cells.{IsCell, cube_of, elements_of, is_leaf_cell};
ghost use Rattle.cell_store.specs.Entries.{cells_of};
ghost use Rattle.rule_laws.specs.Feeding.{Feeds};
ghost use Rattle.rule_model.specs.Conditions.{IsFeeder};
ghost use Rattle.rule_model.specs.System.{system_of};
ghost use Rattle.feed_sources.specs.Feeders.{FeedsByOne, StandsFor};
ghost use Rattle.feed_sources.specs.Spans.{AreAlike};
ghost use Rattle.feed_map.specs.FedCells.{most_fed};
ghost use Rattle.feed_map.specs.Inside.Gains.{Gains, StopsBy};
ghost use Rattle.feed_map.specs.Inside.Follows.{FeedsFrom, EndsChain, AreOpen, AreOpened};

use crate::fault::FedFault;
use crate::leaves::add_leaves_of;
use crate::reached::Reached;
use cell_store::Store;
use cube_space::MAX_DIMENSIONS;
use feed_sources::{SourceModel, is_leaf_cell, is_source};
use rule_laws::Reference;
use rule_model::{Feeder, Model, target};

/// Whether the model has feeders.
pub fn has_feeders(model: &SourceModel) -> bool
    ensures { result ≡ false → (x c : ℕ) → Feeds (system_of model.now) x c → ⊥ }
{
    'each: for cube in 0..model.space().cubes() {
        if !model.rules(cube).feeders.as_slice().is_empty() {
            return true;
        }
    }
    false
}

/// Finds what the stored cells feed.
pub fn follow_stored(
    model: &SourceModel,
    store: &Store,
    reached: &mut Reached,
) -> Result<(), FedFault>
    requires totals { AreOpened model.now reached.old.totals reached.old.growth }
    ensures gains { OnOk result (Gains (FeedsFrom model.now (cells_of store.now))
        reached.old.growth reached.new.growth) }
    ensures stops { IfErr result (StopsBy (FeedsFrom model.now (cells_of store.now))
        reached.old.growth reached.new.growth) }
    ensures totals { OnOk result (AreOpened model.now reached.new.totals reached.new.growth) }
{
    if !has_feeders(model) {
        return Ok(());
    }
    let size = model.space().size();
    let mut from = 0;
    'each: while let Some(entry) = store.entry_from(from) {
        if entry.cell >= size {
            return Ok(());
        }
        follow(model, entry.cell, reached)?;
        from = entry.cell + 1;
    }
    Ok(())
}

/// Finds what these cells feed.
pub fn follow_cells(
    model: &SourceModel,
    cells: &[u64],
    reached: &mut Reached,
) -> Result<(), FedFault>
    requires totals { AreOpened model.now reached.old.totals reached.old.growth }
    ensures gains { OnOk result (Gains (FeedsFrom model.now cells.now) reached.old.growth reached.new.growth) }
    ensures stops { IfErr result (StopsBy (FeedsFrom model.now cells.now) reached.old.growth reached.new.growth) }
    ensures totals { OnOk result (AreOpened model.now reached.new.totals reached.new.growth) }
{
    if !has_feeders(model) {
        return Ok(());
    }
    'each: for place in 0..cells.len() {
        follow(model, cells[place], reached)?;
    }
    Ok(())
}

/// Finds all that chains of feeds lead to from what is known or found.
pub fn follow_opened(model: &SourceModel, reached: &mut Reached) -> Result<(), FedFault>
    requires open { AreOpen model.now reached.old.growth }
    requires few { length reached.old.growth.known ≤ most_fed }
    requires totals { AreOpened model.now reached.old.totals reached.old.growth }
    ensures gains { OnOk result (Gains (EndsChain model.now reached.old.growth) reached.old.growth reached.new.growth) }
    ensures stops { IfErr result (StopsBy (EndsChain model.now reached.old.growth)
        reached.old.growth reached.new.growth) }
    ensures none { OnOk result (reached.new.growth.found.items ≡ []) }
    ensures totals { OnOk result (AreOpened model.now reached.new.totals reached.new.growth) }
{
    if !has_feeders(model) {
        return reached.growth.settle();
    }
    let mut place = 0;
    'each: while let Some(cell) = reached.growth.open_at(place)? {
        follow(model, cell, reached)?;
        place += 1;
    }
    Ok(())
}

/// Finds what a cell feeds. A number that is no cell's feeds none.
pub fn follow(model: &SourceModel, cell: u64, reached: &mut Reached) -> Result<(), FedFault>
    requires totals { AreOpened model.now reached.old.totals reached.old.growth }
    ensures gains { OnOk result (Gains (Feeds (system_of model.now) cell) reached.old.growth reached.new.growth) }
    ensures stops { IfErr result (StopsBy (Feeds (system_of model.now) cell) reached.old.growth reached.new.growth) }
    ensures totals { OnOk result (AreOpened model.now reached.new.totals reached.new.growth) }
{
    if !is_leaf_cell(model.space(), cell) {
        return Ok(());
    }
    let mut at = [0u32; MAX_DIMENSIONS];
    let (cube, len) = model.place_of(cell, &mut at);
    let feeders = model.rules(cube).feeders.as_slice();
    let mut n = 0;
    'each: while n < feeders.len() {
        let end = model.span_end(cube, n);
        let span = &feeders[n..end];
        follow_span(model, span, cube, &at[..len], cell, reached)?;
        n = end;
    }
    Ok(())
}

// Finds what a leaf cell of these elements feeds by feeders of its cube that have the same area.
fn follow_span(
    model: &SourceModel,
    feeders: &[Feeder],
    cube: u32,
    elements: &[u32],
    cell: u64,
    reached: &mut Reached,
) -> Result<(), FedFault>
    requires cell { IsCell model.now.space cell }
    requires leaf { is_leaf_cell model.now.space cell ≡ true }
    requires cube { cube_of model.now.space cell ≡ cube }
    requires elements { elements_of model.now.space cell ≡ elements.now }
    requires feeders { All (IsFeeder model.now.space cube) feeders.now }
    requires some { 0 < length feeders.now }
    requires alike { AreAlike feeders.now }
    requires totals { AreOpened model.now reached.old.totals reached.old.growth }
    ensures gains { OnOk result (Gains (FeedsByOne model.now cube feeders.now cell)
        reached.old.growth reached.new.growth) }
    ensures stops { IfErr result (StopsBy (FeedsByOne model.now cube feeders.now cell)
        reached.old.growth reached.new.growth) }
    ensures totals { OnOk result (AreOpened model.now reached.new.totals reached.new.growth) }
{
    if !is_source(model, cube, feeders[0].area.get(), elements) {
        return Ok(());
    }
    'each: for n in 0..feeders.len() {
        add_target(model.model(), &feeders[n].target, cell, reached)?;
    }
    Ok(())
}

// Finds the leaf cells of the cell that a reference names from a cell.
fn add_target(
    model: &Model,
    reference: &Reference,
    cell: u64,
    reached: &mut Reached,
) -> Result<(), FedFault>
    requires cell { IsCell model.now.space cell }
    requires totals { AreOpened model.now reached.old.totals reached.old.growth }
    ensures gains { OnOk result (Gains (StandsFor model.now reference.now cell) reached.old.growth reached.new.growth) }
    ensures stops { IfErr result (StopsBy (StandsFor model.now reference.now cell)
        reached.old.growth reached.new.growth) }
    ensures totals { OnOk result (AreOpened model.now reached.new.totals reached.new.growth) }
{
    match target(model, reference, cell) {
        Some(target) => add_leaves_of(model, target, reached),
        None => Ok(()),
    }
}
