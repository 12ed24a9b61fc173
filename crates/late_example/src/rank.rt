ghost use Rattle.std.specs.Prelude.{◌≡◌, ◌≤◌, ◌<◌, ◌+◌, ◌-◌, ◌*◌, ◌^◌, true, length, drop, slice_index_or};
ghost use Rattle.cube_space.specs.Cells.{IsCell};
ghost use Rattle.cube_space.specs.Layout.{axes, sizes, most_dimensions};
ghost use Rattle.cube_space.specs.Radix.{are_digits};
ghost use Rattle.rule_model.specs.declared.order.Position.TheVariants.{Constant};
ghost use Rattle.rule_model.specs.Order.{positions_for, number_by};
ghost use Rattle.late_example.specs.Example.{rank_at, is_late};
ghost use Rattle.late_example.specs.Inside.Shown.{levels};

use cube_space::MAX_DIMENSIONS;
use ref_order::{MAX_POSITIONS, axis};
use rule_model::{Model, Order, Position, place_of};

/// What a cell has at a position of the order, and as its level behind the last one.
#[tactic(auto, unfolding(rule_model::specs::Order::number_at, rule_model::specs::Order::cell_level))]
pub fn rank_at(model: &Model, position: u32, cell: u64) -> u64
    requires { IsCell model.now.space cell }
    ensures { result ≡ rank_at model.now position cell }
{
    let mut at = [0u32; MAX_DIMENSIONS];
    let (cube, count) = place_of(model, cell, &mut at);
    let elements = &at[..count];
    if position < MAX_POSITIONS {
        let kind = model.space().is_leaf(cell);
        let positions = positions_for(&model.rules(cube).order, kind);
        u64::from(number_by(positions, position as usize, elements))
    } else {
        level_from(model, cube, elements, 0)
    }
}

/// Whether a cell that has one rank there comes late for a cell with another: it is greater at a position, or isn't
/// smaller as a level.
pub fn is_late(position: u32, own: u64, its: u64) -> bool
    ensures { result ≡ is_late position own its }
{
    if position < MAX_POSITIONS {
        own < its
    } else {
        own <= its
    }
}

fn positions_for(order: &Order, kind: bool) -> &[Position]
    ensures { result.now ≡ positions_for kind order.now }
{
    match &order.totals {
        Some(totals) if !kind => totals.as_slice(),
        _ => order.positions.as_slice(),
    }
}

fn number_by(positions: &[Position], place: usize, elements: &[u32]) -> u32
    ensures { result ≡ number_by (slice_index_or positions.now place (Constant 0)) elements.now }
{
    match positions.get(place) {
        Some(Position::Constant(number)) => *number,
        Some(Position::Ranks { dim, ranks }) => rank_of(ranks.as_slice(), *dim as usize, elements),
        None => 0,
    }
}

fn rank_of(ranks: &[u32], dim: usize, elements: &[u32]) -> u32
    ensures { result ≡ slice_index_or ranks.now (slice_index_or elements.now dim 0) 0 }
{
    let element = item_or_none(elements, dim);
    item_or_none(ranks, element as usize)
}

fn item_or_none(items: &[u32], place: usize) -> u32
    ensures { result ≡ slice_index_or items.now place 0 }
{
    match items.get(place) {
        Some(item) => *item,
        None => 0,
    }
}

// The levels of the elements of a cell of a cube together, from this dimension on.
#[cycle(level_from)]
fn level_from(model: &Model, cube: u32, elements: &[u32], from: usize) -> u64
    requires cube { cube < length model.now.space.cubes }
    requires elements { are_digits (sizes model.now.space cube) elements.now ≡ true }
    requires few { length elements.now ≤ most_dimensions }
    requires from { from ≤ length elements.now }
    ensures value { result ≡ levels (drop from (axes model.now.space cube)) (drop from elements.now) }
    ensures size { result ≤ (length elements.now - from) * 2 ^ 32 }
{
    if from == elements.len() {
        return 0;
    }
    let rest = level_from(model, cube, elements, from + 1);
    u64::from(axis(model, cube, from).level(elements[from])) + rest
}
