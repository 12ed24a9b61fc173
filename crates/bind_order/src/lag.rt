ghost use Rattle.std.specs.Prelude.{◌≡◌, ◌+◌, ◌<◌, ◌≤◌, All, length, ok_or, IfOk, IfSome};
ghost use Rattle.cube_space.specs.Layout.{axes};
ghost use Rattle.rule_model.specs.Conditions.{IsOrderOf};
ghost use Rattle.rule_model.specs.Order.{most_positions};
ghost use Rattle.rule_model.specs.Weights.{AreWeightsOf};
ghost use Rattle.bind_order.specs.Inside.Held.{IsHeldPosition};
ghost use Rattle.bind_order.specs.Lags.{lag_called, lag_place, lag_by, lag_of, lag_positions, lag_order};

use crate::fault::BindOrderFault;
use crate::made::{equal_order, plain_order};
use crate::word::index_position;
use cube_space::{Space, axis_called, axis_count};
use dim_name::Name;
use dim_weights::Weights;
use model_text::{OrderLine, OrderWord};
use rule_model::{Order, Position};
use std::alloc::{AllocError, Global};

/// What an order line says of an order that is to be found.
#[derive(Clone, Copy)]
pub struct Lag {
    /// Whether leaf cells and consolidated cells may have different positions.
    pub totals: bool,
    /// The place in the cube, from 0, of the dimension in which the element's index is the first position, where one is
    /// named. It isn't the last.
    pub place: Option<u32>,
}

// The place of the dimension of this name, where it is one of the cube's and not its last.
fn lag_called(space: &Space, cube: u32, name: &Name) -> Option<u32>
    requires { cube < length space.now.cubes }
    ensures place { result ≡ lag_called (axes space.now cube) name.now }
    ensures within { IfSome result (λ place. place + 1 < length (axes space.now cube)) }
{
    let count = axis_count(space, cube);
    match axis_called(space, cube, name) {
        Some(place) => { if place + 1 < count { Some(place) } else { None } }
        None => None,
    }
}

// The place of the dimension that a line names, if it names one, or None where it may not name it.
fn lag_place(space: &Space, cube: u32, name: &Option<Name>) -> Option<Option<u32>>
    requires { cube < length space.now.cubes }
    ensures place { result ≡ lag_place (axes space.now cube) name.now }
    ensures within { IfSome result (λ found. IfSome found (λ place. place + 1 < length (axes space.now cube))) }
{
    match name {
        None => Some(None),
        Some(name) => match lag_called(space, cube, name) {
            Some(place) => Some(Some(place)),
            None => None,
        },
    }
}

// What a word says of the order, or None where it may not stand.
fn lag_by(space: &Space, cube: u32, word: &OrderWord) -> Option<Lag>
    requires { cube < length space.now.cubes }
    ensures lag { result ≡ lag_by (axes space.now cube) word.now }
    ensures within { IfSome result (λ lag. IfSome lag.place (λ place. place + 1 < length (axes space.now cube))) }
{
    match word {
        OrderWord::Constant(_)
        | OrderWord::Index(_)
        | OrderWord::Ranks(_, _)
        | OrderWord::RanksByKind(_, _, _)
        | OrderWord::Totals => None,
        OrderWord::Auto { totals, lag } => match lag_place(space, cube, lag) {
            Some(place) => Some(Lag {
                totals: *totals,
                place,
            }),
            None => None,
        },
    }
}

// What the words of an order line say of the order, or None where they may not stand.
fn lag_of(space: &Space, cube: u32, words: &[OrderWord]) -> Option<Lag>
    requires { cube < length space.now.cubes }
    ensures lag { result ≡ lag_of (axes space.now cube) words.now }
    ensures within { IfSome result (λ lag. IfSome lag.place (λ place. place + 1 < length (axes space.now cube))) }
{
    match words {
        [word] => lag_by(space, cube, word),
        _ => None,
    }
}

/// What the line of a cube says whose order is to be found. It is bad where it isn't `AUTO` alone, or names a dimension
/// that isn't the cube's or is its last.
pub fn auto_lag(space: &Space, cube: u32, line: &OrderLine) -> Result<Lag, BindOrderFault>
    requires { cube < length space.now.cubes }
    ensures lag { result ≡ ok_or (lag_of (axes space.now cube) line.now.words) (BindOrderFault.BadOrder cube) }
    ensures within { IfOk result (λ lag. IfSome lag.place (λ place. place + 1 < length (axes space.now cube))) }
{
    match lag_of(space, cube, line.words.as_slice()) {
        Some(lag) => Ok(lag),
        None => Err(BindOrderFault::BadOrder(cube)),
    }
}

// The one position of a lag, the index of the elements of the dimension at its place, or none where it has no place.
fn lag_positions(
    alloc: Global,
    space: &Space,
    weights: &[Weights],
    cube: u32,
    place: Option<u32>,
) -> Result<Vec<Position>, AllocError>
    requires cube { cube < length space.now.cubes }
    requires weights { AreWeightsOf space.now.dimensions weights.now }
    requires place { IfSome place (λ p. p < length (axes space.now cube)) }
    ensures positions { IfOk result (λ positions. positions.items ≡ lag_positions (axes space.now cube) place) }
    ensures each { IfOk result (λ positions. All (IsHeldPosition (axes space.now cube)) positions.items) }
    ensures few { IfOk result (λ positions. length positions.items ≤ most_positions) }
{
    let mut positions = Vec::new(alloc);
    if let Some(place) = place {
        let position = index_position(alloc, space, weights, cube, place)?;
        positions.push(position)?;
    }
    Ok(positions)
}

/// The order of a lag alone: its one position is the index of the elements of the dimension at its place, and it has
/// none where there is no place. Where the line says `TOTALS`, leaf cells and consolidated cells have a list each, and
/// both are equal.
pub fn lag_order(
    alloc: Global,
    space: &Space,
    weights: &[Weights],
    cube: u32,
    lag: Lag,
) -> Result<Order, AllocError>
    requires cube { cube < length space.now.cubes }
    requires weights { AreWeightsOf space.now.dimensions weights.now }
    requires lag { IfSome lag.place (λ place. place < length (axes space.now cube)) }
    ensures order { IfOk result (λ order. order ≡ lag_order (axes space.now cube) lag) }
    ensures valid { IfOk result (IsOrderOf space.now cube) }
{
    let positions = lag_positions(alloc, space, weights, cube, lag.place)?;
    if lag.totals {
        let totals = lag_positions(alloc, space, weights, cube, lag.place)?;
        Ok(equal_order(positions, totals))
    } else {
        Ok(plain_order(positions))
    }
}
