ghost use Rattle.std.specs.Prelude.{◌≡◌, ◌<◌, ◌≤◌, ◌&&◌, All, length};
ghost use Rattle.std.specs.List.{list_all, list_any};
ghost use Rattle.dim_weights.specs.Table.{IsWeightsOf};
ghost use Rattle.cube_space.specs.Layout.{axes};
ghost use Rattle.rule_model.specs.Conditions.{rank_in};
ghost use Rattle.rule_model.specs.Order.{most_positions};
ghost use Rattle.rule_model.specs.Weights.{AreWeightsOf};
ghost use Rattle.bind_order.specs.ByKind.{kinds_order};
ghost use Rattle.bind_order.specs.LeafCells.{holds_leaf_cells};
ghost use Rattle.bind_order.specs.Inside.Held.{IsByKind};
ghost use Rattle.bind_order.specs.Inside.Breaks.{agrees_at, exceeds_at, agrees, exceeds, breaks_at, is_of_kind};
ghost use Rattle.bind_order.specs.Inside.Breaks.{has_leaf, has_pair, is_broken_at};

use crate::axes::axis_weights;
use crate::by_kind::PositionByKind;
use crate::listed::is_leaf;
use cube_space::{Space, axis, axis_count};
use dim_core::Dimension;
use dim_weights::Weights;

// The rank of an element.
fn rank_in(ranks: &[u32], element: u32) -> u32
    ensures { result ≡ rank_in ranks.now element }
{
    ranks.get(element as usize).copied().unwrap_or(0)
}

// Whether a leaf has, at a position by ranks of the dimension at this place, the rank that the element has there.
fn agrees_at(place: u32, element: u32, leaf: u32, position: &PositionByKind) -> bool
    ensures { result ≡ agrees_at place element leaf position.now }
{
    match position {
        PositionByKind::Constants(_, _) => true,
        PositionByKind::Ranks(dim, a, b) => {
            *dim != place || rank_in(a.as_slice(), leaf) == rank_in(b.as_slice(), element)
        }
    }
}

// Whether it has so at each of these positions.
fn all_agree_at(front: &[PositionByKind], place: u32, element: u32, leaf: u32) -> bool
    ensures { result ≡ list_all (agrees_at place element leaf) front.now }
{
    front
        .iter()
        .all(|position| agrees_at(place, element, leaf, position))
}

// Whether it has a greater one.
fn exceeds_at(place: u32, element: u32, leaf: u32, position: &PositionByKind) -> bool
    ensures { result ≡ exceeds_at place element leaf position.now }
{
    match position {
        PositionByKind::Constants(_, _) => true,
        PositionByKind::Ranks(dim, a, b) => {
            *dim != place || rank_in(b.as_slice(), element) < rank_in(a.as_slice(), leaf)
        }
    }
}

// Whether leaf cells have the constant that consolidated cells have.
fn agrees(position: &PositionByKind) -> bool
    ensures { result ≡ agrees position.now }
{
    match position {
        PositionByKind::Constants(a, b) => *a == *b,
        PositionByKind::Ranks(_, _, _) => true,
    }
}

// Whether they have so at each of these positions.
fn all_agree(front: &[PositionByKind]) -> bool
    ensures { result ≡ list_all agrees front.now }
{
    front.iter().all(|position| agrees(position))
}

// Whether leaf cells have a greater constant.
fn exceeds(position: &PositionByKind) -> bool
    ensures { result ≡ exceeds position.now }
{
    match position {
        PositionByKind::Constants(a, b) => *b < *a,
        PositionByKind::Ranks(_, _, _) => true,
    }
}

// Whether a leaf cell with this leaf may be greater at the last position, and the same at those in front of it, than a
// consolidated cell with this element.
#[tactic(auto, unfolding(crate::specs::Inside::Breaks::breaks_at))]
fn breaks_at(
    front: &[PositionByKind],
    last: &PositionByKind,
    place: u32,
    element: u32,
    leaf: u32,
) -> bool
    ensures { result ≡ breaks_at front.now last.now place element leaf }
{
    exceeds_at(place, element, leaf, last) && all_agree_at(front, place, element, leaf)
}

// Whether one of these leaves may.
fn some_breaks(
    front: &[PositionByKind],
    last: &PositionByKind,
    place: u32,
    element: u32,
    leaves: &[(u32, i64)],
) -> bool
    ensures { result ≡ list_any (λ pair. breaks_at front.now last.now place element pair.0) leaves.now }
{
    leaves
        .iter()
        .any(|pair| breaks_at(front, last, place, element, pair.0))
}

// Whether an element is a leaf, or whether it isn't.
fn is_of_kind(kind: bool, dimension: &Dimension, element: u32) -> bool
    requires { element < length dimension.now.elements }
    ensures { result ≡ is_of_kind kind dimension.now element }
{
    let leaf = is_leaf(dimension, element);
    if kind { leaf } else { !leaf }
}

// Whether an element is of this kind, and has a leaf that may.
fn element_breaks(
    front: &[PositionByKind],
    last: &PositionByKind,
    place: u32,
    kind: bool,
    dimension: &Dimension,
    weights: &Weights,
    element: u32,
) -> bool
    requires weights { IsWeightsOf dimension.now weights.now }
    requires within { element < length dimension.now.elements }
    ensures { result ≡ (is_of_kind kind dimension.now element
        && has_leaf (breaks_at front.now last.now place) dimension.now element) }
{
    is_of_kind(kind, dimension, element)
        && some_breaks(front, last, place, element, weights.leaves(element))
}

// Whether an element of this kind has a leaf that may.
fn has_pair(
    front: &[PositionByKind],
    last: &PositionByKind,
    place: u32,
    kind: bool,
    dimension: &Dimension,
    weights: &Weights,
) -> bool
    requires { IsWeightsOf dimension.now weights.now }
    ensures { result ≡ has_pair (breaks_at front.now last.now place) kind dimension.now }
{
    for element in 0..dimension.len() {
        if element_breaks(front, last, place, kind, dimension, weights, element) {
            return true;
        }
    }
    false
}

// Whether leaf cells may be greater at the last position, and the same at those in front of it, by the constants there.
fn may_break(front: &[PositionByKind], last: &PositionByKind) -> bool
    ensures { result ≡ (exceeds last.now && list_all agrees front.now) }
{
    exceeds(last) && all_agree(front)
}

// Whether a leaf cell is greater than a consolidated cell in which it counts at the last position, and the same at
// those in front of it: each dimension has such a pair of elements, and one of them one with a consolidated element.
fn is_broken_at(
    space: &Space,
    weights: &[Weights],
    cube: u32,
    front: &[PositionByKind],
    last: &PositionByKind,
) -> bool
    requires cube { cube < length space.now.cubes }
    requires weights { AreWeightsOf space.now.dimensions weights.now }
    ensures { result ≡ is_broken_at (axes space.now cube) front.now last.now }
{
    if !may_break(front, last) {
        return false;
    }
    let mut some = false;
    for place in 0..axis_count(space, cube) {
        let dimension = axis(space, cube, place);
        let own = axis_weights(space, weights, cube, place);
        if has_pair(front, last, place, false, dimension, own) {
            some = true;
        } else if !has_pair(front, last, place, true, dimension, own) {
            return false;
        }
    }
    some
}

/// Whether, in the order of these positions, no leaf cell comes behind a consolidated cell in which it counts.
pub fn holds_leaf_cells(
    space: &Space,
    weights: &[Weights],
    cube: u32,
    positions: &[PositionByKind],
) -> bool
    requires cube { cube < length space.now.cubes }
    requires weights { AreWeightsOf space.now.dimensions weights.now }
    requires each { All (IsByKind (axes space.now cube)) positions.now }
    requires few { length positions.now ≤ most_positions }
    ensures { result ≡ holds_leaf_cells (axes space.now cube) (kinds_order positions.now) }
{
    // a space says of itself that it is one
    let _cells = space.size();
    for place in 0..positions.len() {
        let (front, _) = positions.split_at(place);
        if is_broken_at(space, weights, cube, front, &positions[place]) {
            return false;
        }
    }
    true
}
