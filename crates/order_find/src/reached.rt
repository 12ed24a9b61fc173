ghost use Rattle.std.specs.Prelude.{◌≡◌, ℕ, ◌<◌, ◌^◌, IfSome, None, Some, unwrap_or, length};
ghost use Rattle.std.specs.Prelude.{slice_get, slice_index_or};
ghost use Rattle.cube_space.specs.Layout.{axes, sizes};
ghost use Rattle.cover_laws.specs.Looking.{sent};
ghost use Rattle.order_find.specs.Numbers.{count_of, width};
ghost use Rattle.read_sources.specs.Ways.{IsSource, cube_read, way_of};
ghost use Rattle.order_find.specs.Slots.{MeansByKind, node_count, reached_from, reached_by, reached_slots};
ghost use Rattle.order_find.specs.declared.slots.Gives.{Gives};

use crate::graph::NodeGraph;
use crate::slots::Gives;
use crate::source_arrows::sent_arrow;
use least_ranks::Arrow;
use read_sources::{Source, Way, gives_total, is_total, reads_from, set_of, suits, way};
use ref_order::{axis, count, element_at};
use rule_laws::ElementMap;

/// The arrow in a slot of the node of what a source reads over another dimension, by what the elements that lead there
/// give.
pub fn given_arrow(graph: &NodeGraph, source: Source, gives: Gives, slot: usize) -> Option<Arrow>
    requires source { IsSource graph.now.model source }
    requires means { MeansByKind graph.now.model source }
    ensures arrow { result ≡ unwrap_or (slice_get (reached_slots graph.now source.entry gives) slot) None }
    ensures within { IfSome result (λ arrow. arrow.to < node_count graph.now) }
{
    if gives.its && !source.asks {
        None
    } else {
        reached_arrow(graph, source, gives, slot)
    }
}

// The same, where they may give so much.
fn reached_arrow(graph: &NodeGraph, source: Source, gives: Gives, slot: usize) -> Option<Arrow>
    requires source { IsSource graph.now.model source }
    requires means { MeansByKind graph.now.model source }
    ensures arrow { result ≡ unwrap_or (slice_get
        (reached_by graph.now source.entry gives (way_of graph.now.model source.entry)) slot) None }
    ensures within { IfSome result (λ arrow. arrow.to < node_count graph.now) }
{
    let model = graph.model();
    if let Way::Over(dim, to) = way(model, source) {
        let set = set_of(model, source, dim as usize);
        let size = axis(model, source.cube, dim as usize).len();
        if slot < count(set, size) {
            let element = element_at(set, size, slot);
            return reached_from(graph, source, gives, dim, to, element);
        }
    }
    None
}

// The arrow to what a source reads from an element of that dimension, where this gives what is left of what it asks.
fn reached_from(
    graph: &NodeGraph,
    source: Source,
    gives: Gives,
    dim: u32,
    to: &ElementMap,
    element: u32,
) -> Option<Arrow>
    requires source { IsSource graph.now.model source }
    requires means { MeansByKind graph.now.model source }
    requires cube { cube_read source < length graph.now.model.space.cubes }
    requires dim { dim < length (axes graph.now.model.space source.cube) }
    requires element { element < slice_index_or (sizes graph.now.model.space source.cube) dim 0 }
    requires names { (e t : ℕ) → sent to.now e ≡ Some t → t < width graph.now.model.space (cube_read source) }
    ensures arrow { result ≡ reached_from graph.now source.entry gives dim to.now element }
    ensures within { IfSome result (λ arrow. arrow.to < count_of graph.now.numbering) }
{
    let model = graph.model();
    if !reads_from(model, source, dim as usize, element) {
        return None;
    }
    let own = gives.own || is_total(model, source.cube, dim as usize, element);
    let its = gives.its || gives_total(model, source, dim as usize, element);
    if suits(source, own, its) {
        sent_arrow(graph, source, to.get(element as usize))
    } else {
        None
    }
}

/// How many slots that node has.
pub fn given_count(graph: &NodeGraph, source: Source, gives: Gives) -> u32
    requires { IsSource graph.now.model source }
    ensures { result ≡ length (reached_slots graph.now source.entry gives) }
{
    if gives.its && !source.asks {
        0
    } else {
        reached_count(graph, source) as u32
    }
}

// How many elements the area of a source has in the dimension by which the node that it reads is found, where that is
// another than the last one.
fn reached_count(graph: &NodeGraph, source: Source) -> usize
    requires { IsSource graph.now.model source }
    ensures count { (gives : Gives) → result
        ≡ length (reached_by graph.now source.entry gives (way_of graph.now.model source.entry)) }
    ensures few { result < 2 ^ 31 }
{
    let model = graph.model();
    match way(model, source) {
        Way::Over(dim, _) => {
            let size = axis(model, source.cube, dim as usize).len();
            count(set_of(model, source, dim as usize), size)
        }
        _ => 0,
    }
}
