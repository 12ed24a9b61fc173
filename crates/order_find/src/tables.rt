ghost use Rattle.std.specs.Prelude.{◌≡◌, ◌<◌, ◌≤◌, IsTrue, Some, All, length, slice_get};
ghost use Rattle.dim_core.specs.Outline.{Outline, most_elements, most_components};
ghost use Rattle.cube_space.specs.Layout.{axes};
ghost use Rattle.arrow_laws.specs.Nodes.{last_of, node_kind};
ghost use Rattle.order_find.specs.Numbers.{IsPlace, width};
ghost use Rattle.read_sources.specs.Ways.{IsSource, cube_read};
ghost use Rattle.order_find.specs.Slots.{MeansByKind, is_for, reads_here, is_meant, leads_below, leaves_below};
ghost use Rattle.order_find.specs.Slots.{parts_of, target_at};

use crate::numbering::Place;
use read_sources::{Source, admits, cube_read, has_kinds, is_total, last_of, reads_from};
use ref_order::{axis, weights};
use rule_model::Model;

/// The leaves that count in the element of a node, where an arrow leads to each.
pub fn leaves_below(model: &Model, place: Place) -> &[(u32, i64)]
    requires { IsPlace model.now place }
    ensures leaves { result.now ≡ leaves_below model.now place }
    ensures few { length result.now ≤ most_elements }
    ensures within { All (λ pair. pair.0 < width model.now.space place.cube) result.now }
{
    let last = last_of(model, place.cube);
    let _count = axis(model, place.cube, last).len();
    if leads_below(model, place) {
        weights(model, place.cube, last).leaves(place.element)
    } else {
        &[]
    }
}

// Whether a node leads to those of the leaves that count in its element.
fn leads_below(model: &Model, place: Place) -> bool
    requires { IsPlace model.now place }
    ensures { (d : Outline) → slice_get (axes model.now.space place.cube) (last_of model.now.space place.cube) ≡ Some d
        → result ≡ leads_below model.now place d }
{
    let last = last_of(model, place.cube);
    let total = is_total(model, place.cube, last, place.element);
    !place.kind || (!has_kinds(model, place.cube) && total)
}

/// The components of an element of a cube's last dimension.
pub fn parts_of(model: &Model, place: Place) -> &[(u32, i64)]
    requires { IsPlace model.now place }
    ensures parts { result.now ≡ parts_of model.now.space place }
    ensures few { length result.now ≤ most_components }
    ensures within { All (λ part. part.0 < width model.now.space place.cube) result.now }
{
    let last = last_of(model, place.cube);
    let dimension = axis(model, place.cube, last);
    let _count = dimension.len();
    dimension.components(place.element)
}

/// Whether the node of the components of an element, or of the consolidated ones alone, leads to that of this one.
pub fn is_meant(model: &Model, place: Place, totals: bool, part: u32) -> bool
    requires place { IsPlace model.now place }
    requires part { part < width model.now.space place.cube }
    ensures { result ≡ is_meant model.now place totals part }
{
    let last = last_of(model, place.cube);
    let total = is_total(model, place.cube, last, part);
    let kind = has_kinds(model, place.cube).then_some(place.kind);
    admits(kind, !total) && (!totals || total)
}

/// The kind of the nodes of the cells for which a source reads.
pub fn own_kind(model: &Model, source: Source) -> bool
    requires { IsSource model.now source }
    ensures { result ≡ node_kind model.now source.entry.cube source.entry.kind }
{
    source.kind || !has_kinds(model, source.cube)
}

// Whether a source reads for the cells of a node's kind.
fn is_for(model: &Model, source: Source, place: Place) -> bool
    requires { IsSource model.now source }
    ensures { result ≡ is_for model.now source.entry place }
{
    if own_kind(model, source) {
        place.kind
    } else {
        !place.kind
    }
}

/// Whether a source reads for the cells of a node's kind, and from the node's element.
pub fn reads_here(model: &Model, source: Source, place: Place) -> bool
    requires { IsSource model.now source }
    ensures reads { result ≡ reads_here model.now source.entry place }
    ensures element { IsTrue result → place.element < width model.now.space source.entry.cube }
{
    is_for(model, source, place)
        && reads_from(model, source, last_of(model, source.cube), place.element)
}

/// The node of the cells that a source reads, of this element of their last dimension.
pub fn target_at(model: &Model, source: Source, element: u32) -> Place
    requires means { MeansByKind model.now source }
    requires cube { cube_read source < length model.now.space.cubes }
    requires element { element < width model.now.space (cube_read source) }
    ensures target { result ≡ target_at source.entry element }
    ensures place { IsPlace model.now result }
{
    Place {
        cube: cube_read(source),
        element,
        kind: source.its.unwrap_or(true),
    }
}
