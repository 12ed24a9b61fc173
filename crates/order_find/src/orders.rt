ghost use Rattle.std.specs.Prelude.{◌≡◌, ◌<◌, true, IsTrue, IfOk, OnOk, length, map};
ghost use Rattle.rule_model.specs.Order.{position_of};
ghost use Rattle.rule_model.specs.System.{cubes_of};
ghost use Rattle.arrow_laws.specs.Nodes.{has_nodes};
ghost use Rattle.arrow_laws.specs.Ranked.{AreNodeRanks, order_by};
ghost use Rattle.order_find.specs.Slots.{node_count};
ghost use Rattle.order_find.specs.Cut.{ranks_of, all_ranks, positions_in, order_in};

use crate::graph::NodeGraph;
use crate::numbering::Place;
use lists::ListOf;
use read_sources::{has_kinds, last_of};
use ref_order::axis;
use rule_model::{Model, Order, Position};
use std::alloc::{AllocError, Global};

/// The order of each cube by ranks of the nodes: what its order has for leaf cells at the first position, and then the
/// ranks.
pub fn orders(alloc: Global, graph: &NodeGraph, ranks: &[u32]) -> Result<Vec<Order>, AllocError>
    requires { length ranks.now ≡ node_count graph.now }
    ensures made { IfOk result (λ orders. orders.items
        ≡ map (order_by graph.now.model (all_ranks graph.now ranks.now)) (cubes_of graph.now.model)) }
    ensures ranks { OnOk result (AreNodeRanks graph.now.model (all_ranks graph.now ranks.now)) }
{
    let mut orders = Vec::new(alloc);
    for cube in 0..graph.model().space().cubes() {
        orders.push(order(alloc, graph, cube, ranks)?)?;
    }
    Ok(orders)
}

// The order of a cube.
fn order(alloc: Global, graph: &NodeGraph, cube: u32, ranks: &[u32]) -> Result<Order, AllocError>
    requires ranks { length ranks.now ≡ node_count graph.now }
    requires cube { cube < length graph.now.model.space.cubes }
    ensures { IfOk result (λ order. order ≡ order_in graph.now ranks.now cube) }
{
    let leaves = positions(alloc, graph, cube, true, ranks)?;
    if !has_kinds(graph.model(), cube) {
        return Ok(Order {
            positions: leaves,
            totals: None,
        });
    }
    Ok(Order {
        positions: leaves,
        totals: Some(positions(alloc, graph, cube, false, ranks)?),
    })
}

// The positions of the cells of a kind.
fn positions(
    alloc: Global,
    graph: &NodeGraph,
    cube: u32,
    kind: bool,
    ranks: &[u32],
) -> Result<ListOf<Position>, AllocError>
    requires ranks { length ranks.now ≡ node_count graph.now }
    requires cube { cube < length graph.now.model.space.cubes }
    requires kind { IsTrue (has_nodes graph.now.model cube kind) }
    ensures { IfOk result (λ positions. positions ≡ positions_in graph.now ranks.now cube kind) }
{
    let model = graph.model();
    let mut positions = Vec::new(alloc);
    positions.push(lag(alloc, model, cube)?)?;
    positions.push(Position::Ranks {
        dim: last_of(model, cube) as u32,
        ranks: ListOf::new(cut(alloc, graph, cube, kind, ranks)?),
    })?;
    Ok(ListOf::new(positions))
}

// What the order of a cube has for leaf cells at the first position.
fn lag(alloc: Global, model: &Model, cube: u32) -> Result<Position, AllocError>
    requires { cube < length model.now.space.cubes }
    ensures { IfOk result (λ position. position ≡ position_of model.now cube true 0) }
{
    match model.rules(cube).order.positions.as_slice().first() {
        Some(Position::Ranks { dim, ranks }) => Ok(Position::Ranks {
            dim: *dim,
            ranks: ListOf::new(Vec::from_slice(alloc, ranks.as_slice())?),
        }),
        Some(Position::Constant(number)) => Ok(Position::Constant(*number)),
        None => Ok(Position::Constant(0)),
    }
}

// The ranks of a cube's nodes of a kind.
fn cut(
    alloc: Global,
    graph: &NodeGraph,
    cube: u32,
    kind: bool,
    ranks: &[u32],
) -> Result<Vec<u32>, AllocError>
    requires ranks { length ranks.now ≡ node_count graph.now }
    requires cube { cube < length graph.now.model.space.cubes }
    requires kind { IsTrue (has_nodes graph.now.model cube kind) }
    ensures { IfOk result (λ own. own.items ≡ ranks_of graph.now ranks.now kind cube) }
{
    let model = graph.model();
    let count = axis(model, cube, last_of(model, cube)).len();
    let mut own = Vec::with_capacity(alloc, count as usize)?;
    for element in 0..count {
        let place = Place {
            cube,
            element,
            kind,
        };
        own.push(ranks[graph.number(place) as usize])?;
    }
    Ok(own)
}
