ghost use Rattle.std.specs.Prelude.{◌≡◌, ℕ, true, false, IsTrue, IsFalse, ◌↔◌};
ghost use Rattle.cube_space.specs.Cells.{IsCell, cube_of, elements_of, is_leaf_cell};
ghost use Rattle.rule_laws.specs.Feeding.{Feeds};
ghost use Rattle.rule_model.specs.Conditions.{IsFeeder};
ghost use Rattle.rule_model.specs.System.{system_of, feed_of};
ghost use Rattle.feed_sources.specs.Sources.{IsSource};

use crate::source::is_source;
use crate::source_model::SourceModel;
use cube_space::{MAX_DIMENSIONS, Space};
use rule_model::Feeder;

/// Whether a cell is a leaf cell in the area of a feeder. No other cell feeds any.
pub fn is_any_source(model: &SourceModel, cell: u64) -> bool
    ensures source { IsTrue result ↔ IsSource (system_of model.now) cell }
    ensures other { IsFalse result → (fed : ℕ) → Feeds (system_of model.now) cell fed → ⊥ }
{
    if !is_leaf_cell(model.space(), cell) {
        return false;
    }
    let mut at = [0u32; MAX_DIMENSIONS];
    let (cube, len) = model.place_of(cell, &mut at);
    let feeders = model.rules(cube).feeders.as_slice();
    let mut n = 0;
    'each: while n < feeders.len() {
        if is_source_of(model, &feeders[n], cube, &at[..len], cell) {
            return true;
        }
        n = model.span_end(cube, n);
    }
    false
}

/// Whether a number is a leaf cell's.
pub fn is_leaf_cell(space: &Space, cell: u64) -> bool
    ensures cell { IsTrue result → IsCell space.now cell }
    ensures leaf { IsTrue result → is_leaf_cell space.now cell ≡ true }
    ensures other { IsFalse result → IsCell space.now cell → is_leaf_cell space.now cell ≡ false }
{
    cell < space.size() && space.is_leaf(cell)
}

/// Whether a leaf cell of these elements is in the area of a feeder of its cube.
pub fn is_source_of(
    model: &SourceModel,
    feeder: &Feeder,
    cube: u32,
    elements: &[u32],
    cell: u64,
) -> bool
    requires cell { IsCell model.now.space cell }
    requires leaf { is_leaf_cell model.now.space cell ≡ true }
    requires cube { cube_of model.now.space cell ≡ cube }
    requires elements { elements_of model.now.space cell ≡ elements.now }
    requires feeder { IsFeeder model.now.space cube feeder.now }
    ensures { IsTrue result ↔ (feed_of model.now.space cube feeder.now).source cell ≡ true }
{
    is_source(model, cube, feeder.area.get(), elements)
}
