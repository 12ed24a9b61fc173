ghost use Rattle.std.specs.Prelude.{◌≡◌, ◌<◌, ◌≤◌, All, false, length, map, option_map, IfOk, IfSome};
ghost use Rattle.cube_space.specs.Layout.{axes};
ghost use Rattle.rule_model.specs.Conditions.{IsOrderOf};
ghost use Rattle.rule_model.specs.Order.{most_positions};
ghost use Rattle.rule_model.specs.Weights.{AreWeightsOf};
ghost use Rattle.model_text.specs.Orders.{has_auto};
ghost use Rattle.bind_order.specs.Ranks.{all_of};
ghost use Rattle.bind_order.specs.ByKind.{position_by_kind, order_by_kind};
ghost use Rattle.bind_order.specs.Orders.{position_of, plain_order, order_by, order_of, IsAnsweredBy};
ghost use Rattle.bind_order.specs.Inside.Held.{IsHeldPosition, IsByKind};

use crate::by_kind::{PositionByKind, position_by_kind};
use crate::fault::BindOrderFault;
use crate::leaf_cells::holds_leaf_cells;
use crate::made::{kinds_order, plain_order};
use crate::word::position_of;
use cube_space::Space;
use dim_weights::Weights;
use model_text::{OrderLine, OrderWord};
use rule_model::{Order, Position};
use std::alloc::{AllocError, Global};

/// The most positions of an order line.
pub const MAX_POSITIONS: usize = 8;

// The positions that words mean for cells of both kinds, or None where one of them means none.
fn positions(
    alloc: Global,
    space: &Space,
    weights: &[Weights],
    cube: u32,
    version: u32,
    words: &[OrderWord],
) -> Result<Option<Vec<Position>>, AllocError>
    requires cube { cube < length space.now.cubes }
    requires weights { AreWeightsOf space.now.dimensions weights.now }
    ensures bound { IfOk result (λ found. option_map (λ list. list.items) found
        ≡ all_of (map (position_of space.now cube version) words.now)) }
    ensures each { IfOk result (λ found. IfSome found (λ list. All (IsHeldPosition (axes space.now cube)) list.items)) }
    ensures count { IfOk result (λ found. IfSome found (λ list. length list.items ≡ length words.now)) }
{
    let mut positions = Vec::new(alloc);
    for word in words {
        match position_of(alloc, space, weights, cube, version, word)? {
            Some(position) => positions.push(position)?,
            None => return Ok(None),
        }
    }
    Ok(Some(positions))
}

// The positions that words mean for cells of each kind, or None where one of them means none.
fn positions_by_kind(
    alloc: Global,
    space: &Space,
    weights: &[Weights],
    cube: u32,
    words: &[OrderWord],
) -> Result<Option<Vec<PositionByKind>>, AllocError>
    requires cube { cube < length space.now.cubes }
    requires weights { AreWeightsOf space.now.dimensions weights.now }
    ensures bound { IfOk result (λ found. option_map (λ list. list.items) found
        ≡ all_of (map (position_by_kind (axes space.now cube)) words.now)) }
    ensures each { IfOk result (λ found. IfSome found (λ list. All (IsByKind (axes space.now cube)) list.items)) }
    ensures count { IfOk result (λ found. IfSome found (λ list. length list.items ≡ length words.now)) }
{
    let mut positions = Vec::new(alloc);
    for word in words {
        match position_by_kind(alloc, space, weights, cube, word)? {
            Some(position) => positions.push(position)?,
            None => return Ok(None),
        }
    }
    Ok(Some(positions))
}

// The order that words mean which tell leaf cells and consolidated cells apart, or None where they mean none.
fn order_by_kind(
    alloc: Global,
    space: &Space,
    weights: &[Weights],
    cube: u32,
    words: &[OrderWord],
) -> Result<Option<Order>, AllocError>
    requires cube { cube < length space.now.cubes }
    requires weights { AreWeightsOf space.now.dimensions weights.now }
    requires few { length words.now ≤ most_positions }
    ensures bound { IfOk result (λ found. found ≡ order_by_kind space.now cube words.now) }
    ensures valid { IfOk result (λ found. IfSome found (IsOrderOf space.now cube)) }
{
    let Some(positions) = positions_by_kind(alloc, space, weights, cube, words)? else {
        return Ok(None);
    };
    if holds_leaf_cells(space, weights, cube, &positions) {
        let order = kinds_order(alloc, positions)?;
        Ok(Some(order))
    } else {
        Ok(None)
    }
}

// The order that words mean for cells of both kinds, or None where one of them means none.
fn order_by(
    alloc: Global,
    space: &Space,
    weights: &[Weights],
    cube: u32,
    version: u32,
    words: &[OrderWord],
) -> Result<Option<Order>, AllocError>
    requires cube { cube < length space.now.cubes }
    requires weights { AreWeightsOf space.now.dimensions weights.now }
    requires few { length words.now ≤ most_positions }
    ensures bound { IfOk result (λ found. found ≡ order_by space.now cube version words.now) }
    ensures valid { IfOk result (λ found. IfSome found (IsOrderOf space.now cube)) }
{
    match positions(alloc, space, weights, cube, version, words)? {
        Some(positions) => Ok(Some(plain_order(positions))),
        None => Ok(None),
    }
}

// The order that a line means, or None where it means none.
fn order_of(
    alloc: Global,
    space: &Space,
    weights: &[Weights],
    cube: u32,
    line: &OrderLine,
) -> Result<Option<Order>, AllocError>
    requires cube { cube < length space.now.cubes }
    requires weights { AreWeightsOf space.now.dimensions weights.now }
    ensures bound { IfOk result (λ found. found ≡ order_of space.now cube line.now) }
    ensures valid { IfOk result (λ found. IfSome found (IsOrderOf space.now cube)) }
{
    let words = line.words.as_slice();
    if words.len() > MAX_POSITIONS {
        return Ok(None);
    }
    if line.has_kinds() {
        order_by_kind(alloc, space, weights, cube, words)
    } else {
        order_by(alloc, space, weights, cube, line.version, words)
    }
}

/// The order that the order line of a cube means, where it isn't to be found. The weights are those of the space's
/// dimensions, place by place.
pub fn bind_order(
    alloc: Global,
    space: &Space,
    weights: &[Weights],
    cube: u32,
    line: &OrderLine,
) -> Result<Order, BindOrderFault>
    requires cube { cube < length space.now.cubes }
    requires weights { AreWeightsOf space.now.dimensions weights.now }
    requires positions { has_auto line.now.words ≡ false }
    ensures bound { IsAnsweredBy (order_of space.now cube line.now) cube result }
    ensures valid { IfOk result (IsOrderOf space.now cube) }
{
    match order_of(alloc, space, weights, cube, line)? {
        Some(order) => Ok(order),
        None => Err(BindOrderFault::BadOrder(cube)),
    }
}
