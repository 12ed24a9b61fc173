ghost use Rattle.std.specs.Prelude.{◌≡◌, ◌+◌, ◌<◌, ◌++◌, List, IfOk, OnOk, Some, None};
ghost use Rattle.std.specs.Prelude.{length, unwrap_or, slice_get, map};
ghost use Rattle.std.specs.List.{IsFirstBest};
ghost use Rattle.least_ranks.specs.Graph.{IsClosedWalk};
ghost use Rattle.rule_model.specs.BoundModel.{BoundModel};
ghost use Rattle.arrow_laws.specs.Nodes.{NodeRanks};
ghost use Rattle.arrow_laws.specs.Arrows.{FitArrows};
ghost use Rattle.order_find.specs.Numbers.{IsPlace};
ghost use Rattle.order_find.specs.Slots.{arrows_of};
ghost use Rattle.order_find.specs.PlanOfAll.{IsPlanOfAll};
ghost use Rattle.order_find.specs.Circles.{IsCircle, BeginsLeast};
ghost use Rattle.order_find.specs.Links.{reference_of, maker, made_by, made_on, links_at, links_of};
ghost use Rattle.order_find.specs.Links.{begun_of, is_before};
ghost use Rattle.order_find.specs.declared.link.Link.{Link};

use crate::graph::NodeGraph;
use crate::link::{Link, LinkBy};
use crate::numbering::Place;
use crate::tables::leaves_below;
use least_ranks::Step;
use read_sources::Source;
use std::alloc::{AllocError, Global};

/// Where links are a circle of arrows of a model, of which one is strict, no ranks fit the arrows.
pub fn no_ranks_fit_a_circle()
    ensures { (m : BoundModel) (links : List Link) (ranks : NodeRanks) → IsCircle m links
        → FitArrows m ranks → ⊥ }
{}

/// The links of a closed walk over the graph. They begin with the reference that comes first.
pub fn circle(alloc: Global, graph: &NodeGraph, steps: &[Step]) -> Result<Vec<Link>, AllocError>
    requires plan { IsPlanOfAll graph.now }
    requires closed { IsClosedWalk (arrows_of graph.now) steps.now }
    ensures circle { IfOk result (λ links. IsCircle graph.now.model links.items) }
    ensures least { IfOk result (λ links. BeginsLeast links.items) }
{
    let begun = begun(alloc, graph, steps)?;
    let mut links = links(alloc, graph, &begun)?;
    let first = first_link(&links);
    links.rotate_left(first);
    Ok(links)
}

// The same steps, beginning with one from the node of an element.
fn begun(alloc: Global, graph: &NodeGraph, steps: &[Step]) -> Result<Vec<Step>, AllocError>
    ensures { IfOk result (λ begun. begun.items ≡ begun_of graph.now steps.now) }
{
    let mut begun = Vec::from_slice(alloc, steps)?;
    match steps.first() {
        Some(step) if graph.place(step.node).is_none() => {
            begun.rotate_left(1);
            Ok(begun)
        }
        _ => Ok(begun),
    }
}

// The links of the steps.
fn links(alloc: Global, graph: &NodeGraph, steps: &[Step]) -> Result<Vec<Link>, AllocError>
    ensures { IfOk result (λ links. links.items ≡ links_of graph.now steps.now) }
{
    let mut links = Vec::new(alloc);
    'each: for k in 0..steps.len() {
        add_link(graph, steps[k], step_after(steps, k), &mut links)?;
    }
    Ok(links)
}

// The step after the one at this place.
fn step_after(steps: &[Step], k: usize) -> Option<Step>
    requires { k < length steps.now }
    ensures { result ≡ slice_get steps.now (k + 1) }
{
    steps.get(k + 1).copied()
}

// Adds the link of a step, if it is from the node of an element.
fn add_link(
    graph: &NodeGraph,
    step: Step,
    next: Option<Step>,
    links: &mut Vec<Link>,
) -> Result<(), AllocError>
    ensures { OnOk result (links.new.items ≡ links.old.items ++ links_at graph.now step next) }
{
    let _model = graph.model();
    match graph.place(step.node) {
        Some(place) => {
            let made = made_by(graph, step.node, place, step.slot as usize);
            links.push(Link {
                cube: place.cube,
                element: place.element,
                by: made_on(graph, made, next),
            })?;
            Ok(())
        }
        None => Ok(()),
    }
}

// What makes an arrow: where the next step goes on from the node of a group, the source in the slot of that step.
fn made_on(graph: &NodeGraph, by: Option<LinkBy>, next: Option<Step>) -> LinkBy
    ensures { result ≡ made_on graph.now by next }
{
    match (by, next) {
        (Some(by), _) => by,
        (None, None) => LinkBy::Below,
        (None, Some(next)) => {
            let group = next.node.saturating_sub(graph.hubs_from());
            match graph.member(group, next.slot as usize) {
                Some(source) => reference_of(source),
                None => LinkBy::Below,
            }
        }
    }
}

fn reference_of(source: Source) -> LinkBy
    ensures { result ≡ reference_of source.entry }
{
    LinkBy::Reference {
        statement: source.statement,
        reference: source.reference,
    }
}

// What makes the arrow in a slot of the node of an element, unless that leads to a group.
fn made_by(graph: &NodeGraph, node: u32, place: Place, slot: usize) -> Option<LinkBy>
    requires { IsPlace graph.now.model place }
    ensures { result ≡ made_by graph.now node place slot }
{
    let leaves = leaves_below(graph.model(), place).len();
    if slot < leaves {
        return Some(LinkBy::Below);
    }
    let slot = slot - leaves;
    let whole = graph.of_cube(place.cube);
    if slot < whole.len() {
        return row_maker(graph, whole, slot);
    }
    row_maker(graph, graph.of_node(node), slot - whole.len())
}

// What makes the arrow by the source at a place of a list of them.
fn row_maker(graph: &NodeGraph, row: &[u32], slot: usize) -> Option<LinkBy>
    ensures { result ≡ unwrap_or (slice_get (map (λ k. Some (maker graph.now k)) row.now) slot) None }
{
    let k = *row.get(slot)?;
    match graph.source(k) {
        Some(source) => Some(reference_of(source)),
        None => Some(LinkBy::Below),
    }
}

// The place of the first of the links that comes before the others, where there are links.
fn first_link(links: &[Link]) -> usize
    requires { 0 < length links.now }
    ensures { IsFirstBest is_before links.now (length links.now) result }
{
    let mut best = 0;
    for i in 1..links.len() {
        if is_before(links[i], links[best]) {
            best = i;
        }
    }
    best
}

// Whether the reference of a link comes before that of another.
fn is_before(one: Link, other: Link) -> bool
    ensures { result ≡ is_before one other }
{
    match (one.by, other.by) {
        (
            LinkBy::Reference {
                statement,
                reference,
            },
            LinkBy::Reference {
                statement: s,
                reference: r,
            },
        ) => {
            one.cube < other.cube
                || (one.cube == other.cube && (statement < s || (statement == s && reference < r)))
        }
        (LinkBy::Reference { .. }, LinkBy::Below) => true,
        (LinkBy::Below, _) => false,
    }
}
