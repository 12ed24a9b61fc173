ghost use Rattle.std.specs.Prelude.{◌≡◌, ◌<◌, ◌≤◌, length, IfOk, OnOk};
ghost use Rattle.cube_space.specs.Cells.{IsCell, is_leaf_cell};
ghost use Rattle.rule_model.specs.BoundModel.{rules_of};
ghost use Rattle.rule_model.specs.Order.{most_positions, positions_for, number_by, number_at};
ghost use Rattle.rule_model.specs.Order.{position_size, position_sizes, rank};
ghost use Rattle.rule_dense.specs.Limits.{IsLow};

use crate::place::{number_in, place_of};
use cube_space::MAX_DIMENSIONS;
use rule_model::{Model, Position};
use std::alloc::{AllocError, Global};

/// How many positions the order of a cube has at most.
const MAX_POSITIONS: usize = 8;

fn number_by(position: &Position, elements: &[u32]) -> u32
    ensures { result ≡ number_by position.now elements.now }
{
    match position {
        Position::Constant(number) => *number,
        Position::Ranks { dim, ranks } => {
            let element = number_in(elements, *dim as usize);
            number_in(ranks.as_slice(), element as usize)
        }
    }
}

/// The positions of the order of a cube for cells of this one's kind.
fn positions_of(model: &Model, cube: u32, cell: u64) -> &[Position]
    requires cube { cube < length model.now.space.cubes }
    requires cell { IsCell model.now.space cell }
    ensures { result.now ≡ positions_for (is_leaf_cell model.now.space cell) (rules_of model.now cube).order }
{
    let order = &model.rules(cube).order;
    match &order.totals {
        Some(totals) if !model.space().is_leaf(cell) => totals.as_slice(),
        _ => order.positions.as_slice(),
    }
}

/// The number of a cell at a position of the order.
#[tactic(auto, unfolding(rule_model::specs::Order::number_at))]
fn number_at(model: &Model, place: usize, cell: u64) -> u32
    requires { IsCell model.now.space cell }
    ensures { result ≡ number_at model.now place cell }
{
    let mut at = [0u32; MAX_DIMENSIONS];
    let (cube, dims) = place_of(model.space(), cell, &mut at);
    match positions_of(model, cube, cell).get(place) {
        Some(position) => number_by(position, &at[..dims.len()]),
        None => 0,
    }
}

/// The size of a position: one more than the greatest number that a cell has there.
#[tactic(auto, unfolding(rule_model::specs::Order::position_size))]
fn position_size(model: &Model, place: usize) -> u64
    ensures { result ≡ position_size model.now place }
{
    let mut greatest = 0;
    for cell in 0..model.space().size() {
        greatest = greatest.max(number_at(model, place, cell));
    }
    u64::from(greatest) + 1
}

/// The sizes of the positions.
pub fn position_sizes(alloc: Global, model: &Model) -> Result<Vec<u64>, AllocError>
    ensures { IfOk result (λ sizes. sizes.items ≡ position_sizes model.now) }
{
    let mut sizes = Vec::with_capacity(alloc, MAX_POSITIONS)?;
    for place in 0..MAX_POSITIONS {
        sizes.push(position_size(model, place))?;
    }
    Ok(sizes)
}

/// The rank of a cell, by the sizes of the positions.
#[tactic(auto, unfolding(rule_model::specs::Order::rank))]
pub fn rank(model: &Model, sizes: &[u64], cell: u64) -> u64
    requires cell { IsCell model.now.space cell }
    requires sizes { sizes.now ≡ position_sizes model.now }
    requires low { IsLow model.now }
    ensures { result ≡ rank model.now cell }
{
    let mut rank = 0;
    for (place, size) in sizes.iter().enumerate() {
        rank = rank * *size + u64::from(number_at(model, place, cell));
    }
    rank
}
