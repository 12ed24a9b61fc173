ghost use Rattle.std.specs.Prelude.{◌≡◌, ◌<◌, length, slice_index_or, slice_get, None, Some, true, All, IsTrue};
ghost use Rattle.std.specs.List.{list_any, list_all};
ghost use Rattle.dim_core.specs.Outline.{Outline};
ghost use Rattle.cube_space.specs.Layout.{axes, sizes};
ghost use Rattle.rule_model.specs.Areas.{in_source_set};
ghost use Rattle.rule_model.specs.Conditions.{IsArea};
ghost use Rattle.cover_laws.specs.Covered.{counts_in, are_sources};
ghost use Rattle.feed_cover.specs.Tests.{IsAxis, IsElementOf};

use crate::table::{counts_in, leaves};
use rule_model::{Area, Model};

/// Whether each leaf that counts in an element of a dimension of a cube is among the sources of a feeder of this area.
pub fn are_sources(model: &Model, cube: u32, place: usize, area: &Area, element: u32) -> bool
    requires area { IsArea model.now.space cube area.now }
    requires element { IsElementOf model.now cube place element }
    ensures { result ≡ are_sources (axes model.now.space cube) area.now.sets place element }
{
    let pairs = leaves(model, cube, place, element);
    let Some(listed) = &area.sets.as_slice()[place] else {
        return true;
    };
    'each: for k in 0..pairs.len() {
        if !is_source(model, cube, place, listed.as_slice(), pairs[k].0) {
            return false;
        }
    }
    true
}

// Whether a leaf counts in one of these elements. Where it is one of them, it is found at once.
fn is_source(model: &Model, cube: u32, place: usize, listed: &[u32], leaf: u32) -> bool
    requires leaf { IsElementOf model.now cube place leaf }
    requires listed { All (λ element. element < slice_index_or (sizes model.now.space cube) place 0) listed.now }
    ensures { result ≡ list_any (λ element. counts_in (axes model.now.space cube) place element leaf) listed.now }
{
    if is_own_source(model, cube, place, listed, leaf) {
        return true;
    }
    'each: for k in 0..listed.len() {
        if counts_in(model, cube, place, listed[k], leaf) {
            return true;
        }
    }
    false
}

// Whether a leaf is found among these elements, which rise, and counts in itself.
fn is_own_source(model: &Model, cube: u32, place: usize, listed: &[u32], leaf: u32) -> bool
    requires leaf { IsElementOf model.now cube place leaf }
    requires listed { All (λ element. element < slice_index_or (sizes model.now.space cube) place 0) listed.now }
    ensures { IsTrue result
        → list_any (λ element. counts_in (axes model.now.space cube) place element leaf) listed.now ≡ true }
{
    match listed.binary_search(&leaf) {
        Ok(k) => counts_in(model, cube, place, listed[k], leaf),
        Err(_) => false,
    }
}
