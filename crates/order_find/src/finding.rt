ghost use Rattle.std.specs.Prelude.{IfOk, IfErr};
ghost use Rattle.order_find.specs.Found.{AreFound, IsFindFault};

use crate::circle::circle;
use crate::fault::FindFault;
use crate::graph::NodeGraph;
use crate::orders::orders;
use least_ranks::{RankFault, least_ranks};
use rule_model::{Model, Order};
use std::alloc::Global;

/// The orders of a model's cubes that have as their first position what the cubes' orders have there for leaf cells,
/// and as their second the least ranks of the elements of the last dimension that fit the arrows of the model. What a
/// cell has at the first position is called its lag.
///
/// An arrow goes from the cube and last element of a cell to those of a cell that a formula of it reads at the same
/// lag, and from a consolidated element to each leaf that counts in it. Ranks fit where they fall along each arrow.
/// They may stay the same where all that the formula reads is of a smaller level than its cell, and towards a leaf. No
/// ranks that fit are smaller at any element. With these orders a model is ordered whose own orders have no positions
/// for consolidated cells alone (`arrow_laws`).
///
/// It goes a few times over the statements and the arrows; their number grows with the references and the elements of
/// the last dimensions, and not with the cells.
///
/// # Errors
///
/// - [`FindFault::Unlagged`] exactly where some reference may read at a greater lag, with the first such reference.
/// - [`FindFault::Cycle`] exactly where there is none, and no ranks fit, with arrows that show it.
/// - [`FindFault::Memory`] when out of memory.
pub fn find(alloc: Global, model: &Model) -> Result<Vec<Order>, FindFault>
    ensures found { IfOk result (λ orders. AreFound model.now orders.items) }
    ensures refused { IfErr result (IsFindFault model.now) }
{
    let graph = NodeGraph::of(alloc, model)?;
    match least_ranks(alloc, &graph) {
        Ok(ranks) => Ok(orders(alloc, &graph, &ranks)?),
        Err(RankFault::Cycle(steps)) => Err(FindFault::Cycle(circle(alloc, &graph, &steps)?)),
        Err(RankFault::Memory) => Err(FindFault::Memory),
    }
}
