ghost use Rattle.std.specs.Prelude.{◌≡◌, ◌<◌, length, option_map, IfOk, IfSome};
ghost use Rattle.cube_space.specs.Layout.{axes};
ghost use Rattle.rule_model.specs.Weights.{AreWeightsOf};
ghost use Rattle.rule_model.specs.declared.order.Position.TheVariants.{Ranks};
ghost use Rattle.cube_space.specs.Axes.{axis_called};
ghost use Rattle.bind_order.specs.Orders.{position_of, index_position, list_position};
ghost use Rattle.bind_order.specs.Inside.Held.{IsHeldPosition};

use crate::axes::axis_weights;
use crate::listed::MAX_WRITTEN;
use crate::ranks::{list_ranks, ranks_by_index};
use cube_space::{Space, axis, axis_called};
use dim_name::Name;
use dim_weights::Weights;
use lists::ListOf;
use model_text::OrderWord;
use rule_model::Position;
use std::alloc::{AllocError, Global};

// The position by these ranks of the dimension at a place.
fn position_by(place: u32, ranks: Option<ListOf<u32>>) -> Option<Position>
    ensures { result ≡ option_map (Ranks place) ranks }
{
    match ranks {
        Some(ranks) => Some(Position::Ranks { dim: place, ranks }),
        None => None,
    }
}

/// The position by the index of the elements of the dimension of a cube at a place.
pub fn index_position(
    alloc: Global,
    space: &Space,
    weights: &[Weights],
    cube: u32,
    place: u32,
) -> Result<Position, AllocError>
    requires cube { cube < length space.now.cubes }
    requires weights { AreWeightsOf space.now.dimensions weights.now }
    requires place { place < length (axes space.now cube) }
    ensures bound { IfOk result (λ position. position ≡ index_position (axes space.now cube) place) }
    ensures valid { IfOk result (IsHeldPosition (axes space.now cube)) }
{
    let dimension = axis(space, cube, place);
    let weights = axis_weights(space, weights, cube, place);
    let ranks = ranks_by_index(alloc, dimension, weights)?;
    Ok(Position::Ranks { dim: place, ranks })
}

// The position that a dimension alone means.
fn named_position(
    alloc: Global,
    space: &Space,
    weights: &[Weights],
    cube: u32,
    name: &Name,
) -> Result<Option<Position>, AllocError>
    requires cube { cube < length space.now.cubes }
    requires weights { AreWeightsOf space.now.dimensions weights.now }
    ensures bound { IfOk result (λ found. found ≡ option_map (index_position (axes space.now cube))
        (axis_called (axes space.now cube) name.now)) }
    ensures valid { IfOk result (λ found. IfSome found (IsHeldPosition (axes space.now cube))) }
{
    match axis_called(space, cube, name) {
        Some(place) => {
            let position = index_position(alloc, space, weights, cube, place)?;
            Ok(Some(position))
        }
        None => Ok(None),
    }
}

// The position that a dimension with a list of ranks means.
fn list_position(
    alloc: Global,
    space: &Space,
    weights: &[Weights],
    cube: u32,
    version: u32,
    name: &Name,
    list: &[(Name, u32)],
) -> Result<Option<Position>, AllocError>
    requires cube { cube < length space.now.cubes }
    requires weights { AreWeightsOf space.now.dimensions weights.now }
    ensures bound { IfOk result (λ found. found ≡ list_position (axes space.now cube) version list.now
        (axis_called (axes space.now cube) name.now)) }
    ensures valid { IfOk result (λ found. IfSome found (IsHeldPosition (axes space.now cube))) }
{
    match axis_called(space, cube, name) {
        Some(place) => {
            let dimension = axis(space, cube, place);
            let weights = axis_weights(space, weights, cube, place);
            let ranks = list_ranks(alloc, dimension, weights, version, list)?;
            Ok(position_by(place, ranks))
        }
        None => Ok(None),
    }
}

/// The position that a word of an order line means, or None where it means none.
pub fn position_of(
    alloc: Global,
    space: &Space,
    weights: &[Weights],
    cube: u32,
    version: u32,
    word: &OrderWord,
) -> Result<Option<Position>, AllocError>
    requires cube { cube < length space.now.cubes }
    requires weights { AreWeightsOf space.now.dimensions weights.now }
    ensures bound { IfOk result (λ found. found ≡ position_of space.now cube version word.now) }
    ensures valid { IfOk result (λ found. IfSome found (IsHeldPosition (axes space.now cube))) }
{
    match word {
        OrderWord::Constant(number) => {
            if *number <= MAX_WRITTEN {
                Ok(Some(Position::Constant(*number)))
            } else {
                Ok(None)
            }
        }
        OrderWord::Index(name) => named_position(alloc, space, weights, cube, name),
        OrderWord::Ranks(name, list) => {
            list_position(alloc, space, weights, cube, version, name, list.as_slice())
        }
        OrderWord::RanksByKind(_, _, _) | OrderWord::Totals | OrderWord::Auto { .. } => Ok(None),
    }
}
