ghost use Rattle.std.specs.Prelude.{◌≡◌, ◌<◌, IfSome, None, All, unwrap_or, map, length, slice_get};
ghost use Rattle.order_find.specs.Numbers.{IsPlace, width};
ghost use Rattle.order_find.specs.Slots.{IsVertex, node_count, source_arrow, group_arrow, leaf_arrow, part_arrow};
ghost use Rattle.order_find.specs.Slots.{member_arrow, members, parts_of, group_slots, slots_of};
ghost use Rattle.order_find.specs.declared.slots.Vertex.TheVariants.{Element};

use crate::graph::NodeGraph;
use crate::numbering::Place;
use crate::reached::{given_arrow, given_count};
use crate::slots::Vertex;
use crate::source_arrows::{group_arrow, sent_arrow, source_arrow};
use crate::tables::{is_meant, leaves_below, parts_of};
use least_ranks::Arrow;
use read_sources::{Way, is_nonzero, way};

/// The arrow in a slot of a node.
pub fn arrow_in(graph: &NodeGraph, node: u32, vertex: Vertex, slot: usize) -> Option<Arrow>
    requires { IsVertex graph.now node vertex }
    ensures arrow { result ≡ unwrap_or (slice_get (slots_of graph.now node vertex.entry) slot) None }
    ensures within { IfSome result (λ arrow. arrow.to < node_count graph.now) }
{
    match vertex {
        Vertex::Element(place) => element_arrow(graph, node, place, slot),
        Vertex::Components(place, totals) => components_arrow(graph, place, totals, slot),
        Vertex::Reached(source, gives) => given_arrow(graph, source, gives, slot),
        Vertex::Shared(group) => shared_arrow(graph, group, slot),
    }
}

// The arrow in a slot of the node of an element: to a leaf, by a single source or to the node of a group.
fn element_arrow(graph: &NodeGraph, node: u32, place: Place, slot: usize) -> Option<Arrow>
    requires { IsPlace graph.now.model place }
    ensures arrow { result ≡ unwrap_or (slice_get (slots_of graph.now node (Element place)) slot) None }
    ensures within { IfSome result (λ arrow. arrow.to < node_count graph.now) }
{
    let leaves = leaves_below(graph.model(), place);
    if slot < leaves.len() {
        return row_leaf(graph, place, leaves, slot);
    }
    let slot = slot - leaves.len();
    let whole = graph.of_cube(place.cube);
    if slot < whole.len() {
        return row_arrow(graph, place, whole, slot);
    }
    let slot = slot - whole.len();
    let own = graph.of_node(node);
    if slot < own.len() {
        return row_arrow(graph, place, own, slot);
    }
    arrow_to_group(graph, node, place, slot - own.len())
}

// The arrow to the leaf at a place of a list of them.
fn row_leaf(graph: &NodeGraph, place: Place, row: &[(u32, i64)], slot: usize) -> Option<Arrow>
    requires cube { place.cube < length graph.now.model.space.cubes }
    requires within { All (λ pair. pair.0 < width graph.now.model.space place.cube) row.now }
    ensures arrow { result ≡ unwrap_or (slice_get (map (leaf_arrow graph.now place.cube) row.now) slot) None }
    ensures within { IfSome result (λ arrow. arrow.to < node_count graph.now) }
{
    if slot < row.len() {
        let leaf = Place {
            element: row[slot].0,
            kind: true,
            ..place
        };
        return Some(Arrow {
            to: graph.number(leaf),
            strict: false,
        });
    }
    None
}

// The arrow by the source at a place of a list of them.
fn row_arrow(graph: &NodeGraph, place: Place, row: &[u32], slot: usize) -> Option<Arrow>
    ensures arrow { result ≡ unwrap_or (slice_get (map (source_arrow graph.now place) row.now) slot) None }
    ensures within { IfSome result (λ arrow. arrow.to < node_count graph.now) }
{
    match row.get(slot) {
        Some(k) => source_arrow(graph, place, *k),
        None => None,
    }
}

// The arrow to the node of a group in one of the slots for those.
fn arrow_to_group(graph: &NodeGraph, node: u32, place: Place, slot: usize) -> Option<Arrow>
    ensures arrow { result ≡ unwrap_or (slice_get (group_slots graph.now node place) slot) None }
    ensures within { IfSome result (λ arrow. arrow.to < node_count graph.now) }
{
    let whole = graph.groups_of_cube(place.cube);
    if slot < whole.len() {
        return row_group(graph, place, whole, slot);
    }
    row_group(graph, place, graph.groups_of_node(node), slot - whole.len())
}

// The arrow to the node of the group at a place of a list of them.
fn row_group(graph: &NodeGraph, place: Place, row: &[u32], slot: usize) -> Option<Arrow>
    ensures arrow { result ≡ unwrap_or (slice_get (map (group_arrow graph.now place) row.now) slot) None }
    ensures within { IfSome result (λ arrow. arrow.to < node_count graph.now) }
{
    match row.get(slot) {
        Some(group) => group_arrow(graph, place, *group),
        None => None,
    }
}

// The arrow in a slot of the node of the components of an element.
fn components_arrow(graph: &NodeGraph, place: Place, totals: bool, slot: usize) -> Option<Arrow>
    requires { IsPlace graph.now.model place }
    ensures arrow { result ≡ unwrap_or (slice_get
        (map (part_arrow graph.now place totals) (parts_of graph.now.model.space place)) slot) None }
    ensures within { IfSome result (λ arrow. arrow.to < node_count graph.now) }
{
    let parts = parts_of(graph.model(), place);
    if slot < parts.len() {
        return part_arrow(graph, place, totals, parts[slot]);
    }
    None
}

// The arrow to a component.
fn part_arrow(graph: &NodeGraph, place: Place, totals: bool, part: (u32, i64)) -> Option<Arrow>
    requires place { IsPlace graph.now.model place }
    requires part { part.0 < width graph.now.model.space place.cube }
    ensures arrow { result ≡ part_arrow graph.now place totals part }
    ensures within { IfSome result (λ arrow. arrow.to < node_count graph.now) }
{
    let model = graph.model();
    let element = part.0;
    if is_nonzero(part.1) && is_meant(model, place, totals, element) {
        Some(Arrow {
            to: graph.number(Place { element, ..place }),
            strict: false,
        })
    } else {
        None
    }
}

// The arrow in a slot of the node of a group, to what one of its sources always reads.
fn shared_arrow(graph: &NodeGraph, group: u32, slot: usize) -> Option<Arrow>
    ensures arrow { result ≡ unwrap_or (slice_get (map (member_arrow graph.now) (members graph.now group)) slot) None }
    ensures within { IfSome result (λ arrow. arrow.to < node_count graph.now) }
{
    let model = graph.model();
    let source = graph.member(group, slot)?;
    match way(model, source) {
        Way::To(target) => sent_arrow(graph, source, Some(target)),
        _ => None,
    }
}

/// How many slots a node has.
pub fn slots_in(graph: &NodeGraph, node: u32, vertex: Vertex) -> u32
    requires { IsVertex graph.now node vertex }
    ensures { result ≡ length (slots_of graph.now node vertex.entry) }
{
    match vertex {
        Vertex::Element(place) => element_slots(graph, node, place),
        Vertex::Components(place, _) => parts_of(graph.model(), place).len() as u32,
        Vertex::Reached(source, gives) => given_count(graph, source, gives),
        Vertex::Shared(group) => {
            let _model = graph.model();
            graph.member_count(group) as u32
        }
    }
}

// How many slots the node of an element has.
fn element_slots(graph: &NodeGraph, node: u32, place: Place) -> u32
    requires { IsPlace graph.now.model place }
    ensures { result ≡ length (slots_of graph.now node (Element place)) }
{
    let leaves = leaves_below(graph.model(), place).len();
    let sources = graph.of_cube(place.cube).len() + graph.of_node(node).len();
    let groups = graph.groups_of_cube(place.cube).len() + graph.groups_of_node(node).len();
    (leaves + sources + groups) as u32
}
