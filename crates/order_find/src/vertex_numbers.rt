ghost use Rattle.std.specs.Prelude.{◌≡◌, ◌≤◌, IfSome};
ghost use Rattle.order_find.specs.Slots.{IsVertex, both_from, components_from, given_from};
ghost use Rattle.order_find.specs.Slots.{vertex_at, parts_vertex, reached_vertex};

use crate::graph::NodeGraph;
use crate::slots::{Gives, Vertex};

/// Which node has this number.
pub fn vertex<'a>(graph: &NodeGraph<'a>, node: u32) -> Option<Vertex<'a>>
    ensures vertex { result ≡ vertex_at graph.now node }
    ensures valid { IfSome result (IsVertex graph.now node) }
{
    let _model = graph.model();
    if node < graph.place_count() {
        match graph.place(node) {
            Some(place) => Some(Vertex::Element(place)),
            None => None,
        }
    } else if node < graph.components_from(true) {
        components_at(graph, node, false)
    } else if node < graph.given_from(true, true) {
        components_at(graph, node, true)
    } else {
        vertex_behind(graph, node)
    }
}

// The same behind the nodes for components.
fn vertex_behind<'a>(graph: &NodeGraph<'a>, node: u32) -> Option<Vertex<'a>>
    requires { both_from graph.now ≤ node }
    ensures vertex { result ≡ vertex_at graph.now node }
    ensures valid { IfSome result (IsVertex graph.now node) }
{
    let _model = graph.model();
    let hubs = graph.hubs_from();
    if node < graph.given_from(true, false) {
        reached_at(graph, node, true, true)
    } else if node < graph.given_from(false, true) {
        reached_at(graph, node, true, false)
    } else if node < graph.given_from(false, false) {
        reached_at(graph, node, false, true)
    } else if node < hubs {
        reached_at(graph, node, false, false)
    } else if node - hubs < graph.group_count() {
        Some(Vertex::Shared(node - hubs))
    } else {
        None
    }
}

fn components_at<'a>(graph: &NodeGraph<'a>, node: u32, totals: bool) -> Option<Vertex<'a>>
    requires { components_from graph.now totals ≤ node }
    ensures vertex { result ≡ parts_vertex graph.now totals node }
    ensures valid { IfSome result (IsVertex graph.now node) }
{
    let _model = graph.model();
    match graph.place(node - graph.components_from(totals)) {
        Some(place) => Some(Vertex::Components(place, totals)),
        None => None,
    }
}

fn reached_at<'a>(graph: &NodeGraph<'a>, node: u32, own: bool, its: bool) -> Option<Vertex<'a>>
    requires { given_from graph.now own its ≤ node }
    ensures vertex { result ≡ reached_vertex graph.now own its node }
    ensures valid { IfSome result (IsVertex graph.now node) }
{
    let _model = graph.model();
    match graph.source(node - graph.given_from(own, its)) {
        Some(source) => Some(Vertex::Reached(source, Gives { own, its })),
        None => None,
    }
}
