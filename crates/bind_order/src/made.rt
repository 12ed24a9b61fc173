ghost use Rattle.std.specs.Prelude.{◌≡◌, ◌≤◌, ℕ, All, length, IfOk};
ghost use Rattle.cube_space.specs.Layout.{Layout, axes};
ghost use Rattle.rule_model.specs.Conditions.{IsOrderOf};
ghost use Rattle.rule_model.specs.Order.{most_positions};
ghost use Rattle.bind_order.specs.ByKind.{kinds_order};
ghost use Rattle.bind_order.specs.Orders.{plain_order, equal_order};
ghost use Rattle.bind_order.specs.Inside.Held.{IsHeldPosition};

use crate::by_kind::PositionByKind;
use lists::ListOf;
use rule_model::{Order, Position};
use std::alloc::{AllocError, Global};

/// The order of these positions, for cells of both kinds.
pub fn plain_order(positions: Vec<Position>) -> Order
    ensures order { result ≡ plain_order positions.items }
    ensures valid { (space : Layout) (cube : ℕ) → length positions.items ≤ most_positions
        → All (IsHeldPosition (axes space cube)) positions.items → IsOrderOf space cube result }
{
    Order {
        positions: ListOf::new(positions),
        totals: None,
    }
}

/// The order of these positions, of which leaf cells and consolidated cells have a list each.
pub fn equal_order(positions: Vec<Position>, totals: Vec<Position>) -> Order
    requires { totals.items ≡ positions.items }
    ensures order { result ≡ equal_order positions.items }
    ensures valid { (space : Layout) (cube : ℕ) → length positions.items ≤ most_positions
        → All (IsHeldPosition (axes space cube)) positions.items → IsOrderOf space cube result }
{
    Order {
        positions: ListOf::new(positions),
        totals: Some(ListOf::new(totals)),
    }
}

/// The order of these positions, for cells of each kind.
pub fn kinds_order(alloc: Global, positions: Vec<PositionByKind>) -> Result<Order, AllocError>
    ensures { IfOk result (λ order. order ≡ kinds_order positions.items) }
{
    let mut leaves = Vec::new(alloc);
    let mut totals = Vec::new(alloc);
    for position in positions {
        let (leaf, total) = position.into_both();
        leaves.push(leaf)?;
        totals.push(total)?;
    }
    Ok(Order {
        positions: ListOf::new(leaves),
        totals: Some(ListOf::new(totals)),
    })
}
