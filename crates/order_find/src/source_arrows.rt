ghost use Rattle.std.specs.Prelude.{◌≡◌, ℕ, ◌<◌, List, Option, IfSome, Some, option_map, length};
ghost use Rattle.order_find.specs.Numbers.{count_of, width};
ghost use Rattle.read_sources.specs.Ways.{Same, Component, SentOver, IsSource, cube_read, way_of};
ghost use Rattle.order_find.specs.Slots.{MeansByKind, node_count, sent_to, arrow_by, source_arrow, group_arrow};

use crate::graph::NodeGraph;
use crate::numbering::Place;
use crate::tables::{reads_here, target_at};
use least_ranks::Arrow;
use read_sources::{Source, Way, gives_total, is_total, last_of, serves_any, suits, way};

/// The arrow from the node of an element by the source of this number, where that reads for cells of the node.
pub fn source_arrow(graph: &NodeGraph, place: Place, k: u32) -> Option<Arrow>
    ensures arrow { result ≡ source_arrow graph.now place k }
    ensures within { IfSome result (λ arrow. arrow.to < node_count graph.now) }
{
    let model = graph.model();
    match graph.source(k) {
        Some(source) if reads_here(model, source, place) => arrow_by(graph, place, k, source),
        _ => None,
    }
}

/// The arrow to the node of the group of this number, where its first source reads for cells of the node.
pub fn group_arrow(graph: &NodeGraph, place: Place, group: u32) -> Option<Arrow>
    ensures arrow { result ≡ group_arrow graph.now place group }
    ensures within { IfSome result (λ arrow. arrow.to < node_count graph.now) }
{
    let model = graph.model();
    match graph.head(group) {
        Some(source)
            if reads_here(model, source, place) && serves_any(model, source, place.element) => {
            Some(Arrow {
                to: graph.hubs_from() + group,
                strict: false,
            })
        }
        _ => None,
    }
}

// The same by this source, which has that number.
fn arrow_by(graph: &NodeGraph, place: Place, k: u32, source: Source) -> Option<Arrow>
    requires source { IsSource graph.now.model source }
    requires means { MeansByKind graph.now.model source }
    requires element { place.element < width graph.now.model.space source.cube }
    requires k { k < length graph.now.sources }
    ensures arrow { result ≡ arrow_by graph.now place k source.entry (way_of graph.now.model source.entry) }
    ensures within { IfSome result (λ arrow. arrow.to < node_count graph.now) }
{
    let model = graph.model();
    let any = serves_any(model, source, place.element);
    match way(model, source) {
        Way::Itself => itself_arrow(graph, place, source),
        Way::Parts => Some(to_parts(graph, place, source)),
        Way::To(target) if any => sent_arrow(graph, source, Some(target)),
        Way::By(map) if any => sent_arrow(graph, source, map.get(place.element as usize)),
        Way::Over(..) => Some(to_reached(graph, place, k, source)),
        _ => None,
    }
}

// The arrow by a source whose node of the same element is read.
fn itself_arrow(graph: &NodeGraph, place: Place, source: Source) -> Option<Arrow>
    requires source { IsSource graph.now.model source }
    requires means { MeansByKind graph.now.model source }
    requires element { place.element < width graph.now.model.space source.cube }
    requires same { way_of graph.now.model source ≡ Same }
    ensures arrow { (k : ℕ) → result ≡ arrow_by graph.now place k source.entry Same }
    ensures within { IfSome result (λ arrow. arrow.to < count_of graph.now.numbering) }
{
    let model = graph.model();
    let last = last_of(model, source.cube);
    if suits(
        source,
        true,
        is_total(model, source.cube, last, place.element),
    ) {
        sent_arrow(graph, source, Some(place.element))
    } else {
        None
    }
}

// The arrow to the node of the components of an element.
fn to_parts(graph: &NodeGraph, place: Place, source: Source) -> Arrow
    requires means { MeansByKind graph.now.model source }
    requires cube { cube_read source < length graph.now.model.space.cubes }
    requires element { place.element < width graph.now.model.space (cube_read source) }
    ensures arrow { (k : ℕ) → Some result ≡ arrow_by graph.now place k source.entry Component }
    ensures within { result.to < node_count graph.now }
{
    let _model = graph.model();
    let whole = suits(source, true, false);
    let number = graph.number(target_at(graph.model(), source, place.element));
    Arrow {
        to: graph.components_from(!whole) + number,
        strict: false,
    }
}

// The arrow to the node of what the source of this number reads over another dimension.
fn to_reached(graph: &NodeGraph, place: Place, k: u32, source: Source) -> Arrow
    requires source { IsSource graph.now.model source }
    requires element { place.element < width graph.now.model.space source.cube }
    requires k { k < length graph.now.sources }
    ensures arrow { (i : ℕ) (to : List (Option ℕ)) → Some result
        ≡ arrow_by graph.now place k source.entry (SentOver i to) }
    ensures within { result.to < node_count graph.now }
{
    let model = graph.model();
    let last = last_of(model, source.cube);
    let own = is_total(model, source.cube, last, place.element);
    let its = gives_total(model, source, last, place.element);
    Arrow {
        to: graph.given_from(own, its) + k,
        strict: false,
    }
}

/// The arrow to a node that a source reads, where there is one.
pub fn sent_arrow(graph: &NodeGraph, source: Source, target: Option<u32>) -> Option<Arrow>
    requires means { MeansByKind graph.now.model source }
    requires cube { cube_read source < length graph.now.model.space.cubes }
    requires target { IfSome target (λ t. t < width graph.now.model.space (cube_read source)) }
    ensures arrow { result ≡ option_map (sent_to graph.now source.entry) target }
    ensures within { IfSome result (λ arrow. arrow.to < count_of graph.now.numbering) }
{
    match target {
        Some(element) => Some(Arrow {
            to: graph.number(target_at(graph.model(), source, element)),
            strict: !source.weak,
        }),
        None => None,
    }
}
