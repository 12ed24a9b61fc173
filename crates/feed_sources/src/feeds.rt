ghost use Rattle.std.specs.Prelude.{◌≡◌, true, IsTrue, ◌↔◌, Contains};
ghost use Rattle.cube_space.specs.Cells.{IsCell, cube_of, is_leaf_cell};
ghost use Rattle.rule_laws.specs.Feeding.{FeedsBy, leaves_of};
ghost use Rattle.rule_model.specs.Conditions.{IsFeeder};
ghost use Rattle.rule_model.specs.System.{system_of, feed_of};
ghost use Rattle.feed_sources.specs.Feeders.{StandsFor};

use crate::source_model::SourceModel;
use crate::sources::is_source_of;
use cube_space::MAX_DIMENSIONS;
use rule_laws::Reference;
use rule_model::{Feeder, target, weight};

/// Whether a cell of a cube feeds a leaf cell by this feeder of the cube.
pub fn feeds_by(model: &SourceModel, cube: u32, feeder: &Feeder, source: u64, cell: u64) -> bool
    requires feeder { IsFeeder model.now.space cube feeder.now }
    requires source { IsCell model.now.space source }
    requires cube { cube_of model.now.space source ≡ cube }
    requires cell { IsCell model.now.space cell }
    requires leaf { is_leaf_cell model.now.space cell ≡ true }
    ensures { IsTrue result
        ↔ FeedsBy (system_of model.now) (feed_of model.now.space cube feeder.now) source cell }
{
    if !model.space().is_leaf(source) {
        return false;
    }
    let mut at = [0u32; MAX_DIMENSIONS];
    let (_, len) = model.place_of(source, &mut at);
    is_source_of(model, feeder, cube, &at[..len], source)
        && stands_for(model, &feeder.target, source, cell)
}

// Whether a leaf cell is one that a reference from another cell means.
fn stands_for(model: &SourceModel, reference: &Reference, source: u64, cell: u64) -> bool
    requires source { IsCell model.now.space source }
    requires cell { IsCell model.now.space cell }
    requires leaf { is_leaf_cell model.now.space cell ≡ true }
    ensures { IsTrue result ↔ StandsFor model.now reference.now source cell }
{
    match target(model.model(), reference, source) {
        Some(named) => is_leaf_of(model, named, cell),
        None => false,
    }
}

// Whether a leaf cell is one that a cell means: itself, or one below it.
fn is_leaf_of(model: &SourceModel, total: u64, cell: u64) -> bool
    requires total { IsCell model.now.space total }
    requires cell { IsCell model.now.space cell }
    requires leaf { is_leaf_cell model.now.space cell ≡ true }
    ensures { IsTrue result ↔ Contains (leaves_of (system_of model.now) total) cell }
{
    if model.space().is_leaf(total) {
        return total == cell;
    }
    weight(model.model(), total, cell) != 0
}
