ghost use Rattle.std.specs.Prelude.{◌≡◌, ◌<◌, length, slice_index_or, None, IsTrue};
ghost use Rattle.cube_space.specs.Layout.{axes, sizes};
ghost use Rattle.rule_model.specs.Areas.{in_set};
ghost use Rattle.rule_model.specs.Conditions.{IsSet};
ghost use Rattle.order_laws.specs.Scales.{set_count, set_element};
ghost use Rattle.feed_cover.specs.Views.{IsView};

use crate::reference_view::ReferenceView;
use lists::ListOf;
use ref_order::{axis, count, element_at};
use rule_model::Model;

// The elements that the area has in a dimension.
fn set<'a>(model: &Model, view: ReferenceView<'a>, dim: usize) -> &'a Option<ListOf<u32>>
    requires view { IsView model.now view }
    requires dim { dim < length (axes model.now.space view.cube) }
    ensures { result.now ≡ slice_index_or view.entry.area.now.sets dim None }
{
    let _space = model.space();
    &view.area.sets.as_slice()[dim]
}

/// Whether the area has all elements of a dimension.
pub fn has_all(model: &Model, view: ReferenceView, dim: usize) -> bool
    requires view { IsView model.now view }
    requires dim { dim < length (axes model.now.space view.cube) }
    ensures { IsTrue result → slice_index_or view.entry.area.now.sets dim None ≡ None }
{
    set(model, view, dim).is_none()
}

/// How many elements the area has in a dimension.
pub fn count_in(model: &Model, view: ReferenceView, dim: usize) -> usize
    requires view { IsView model.now view }
    requires dim { dim < length (axes model.now.space view.cube) }
    ensures { result ≡ set_count (slice_index_or (sizes model.now.space view.entry.cube) dim 0)
        (slice_index_or view.entry.area.now.sets dim None) }
{
    count(set(model, view, dim), axis(model, view.cube, dim).len())
}

/// The element at a place among them.
pub fn element_in(model: &Model, view: ReferenceView, dim: usize, k: usize) -> u32
    requires view { IsView model.now view }
    requires dim { dim < length (axes model.now.space view.cube) }
    requires there { k < set_count (slice_index_or (sizes model.now.space view.cube) dim 0)
        (slice_index_or view.area.now.sets dim None) }
    ensures element { result ≡ set_element (slice_index_or view.entry.area.now.sets dim None) k }
    ensures within { result < slice_index_or (sizes model.now.space view.entry.cube) dim 0 }
{
    element_at(set(model, view, dim), axis(model, view.cube, dim).len(), k)
}

/// Whether an element is in a set of an area.
pub fn is_listed(set: &Option<ListOf<u32>>, size: u32, element: u32) -> bool
    requires { IsSet size set.now }
    ensures { result ≡ in_set set.now element }
{
    match set {
        Some(listed) => listed.as_slice().binary_search(&element).is_ok(),
        None => true,
    }
}
