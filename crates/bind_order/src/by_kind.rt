ghost use Rattle.std.specs.Prelude.{◌≡◌, ◌<◌, Some, List, length, option_map, slice_get, IfOk, IfSome};
ghost use Rattle.dim_core.specs.Outline.{Outline};
ghost use Rattle.cube_space.specs.Layout.{axes};
ghost use Rattle.rule_model.specs.Weights.{AreWeightsOf};
ghost use Rattle.bind_order.specs.Ranks.{ranks_by_index, filled_ranks};
ghost use Rattle.bind_order.specs.ByKind.{same_ranks, two_ranks, position_named, position_by_kind};
ghost use Rattle.bind_order.specs.ByKind.{leaf_position, total_position};
ghost use Rattle.bind_order.specs.Inside.Held.{IsByKind};

use crate::axes::axis_weights;
use crate::listed::MAX_WRITTEN;
use crate::ranks::{filled_ranks, plain_ranks, ranks_by_index};
use cube_space::{Space, axis, axis_called};
use dim_core::Dimension;
use dim_name::Name;
use dim_weights::Weights;
use lists::ListOf;
use model_text::OrderWord;
use rule_model::Position;
use std::alloc::{AllocError, Global};

/// What leaf cells have at a position of an order, and what consolidated cells have there.
#[derive(Drop)]
pub enum PositionByKind {
    /// The same number for each leaf cell, and one for each consolidated cell.
    Constants(u32, u32),
    /// The rank of the cell's element in this dimension, by element: for a leaf cell, and for a consolidated cell.
    Ranks(u32, ListOf<u32>, ListOf<u32>),
}

impl PositionByKind {
    /// The position of leaf cells, and that of consolidated cells.
    pub fn into_both(self) -> (Position, Position)
        ensures leaf { result.0 ≡ leaf_position self }
        ensures total { result.1 ≡ total_position self }
    {
        match self {
            PositionByKind::Constants(leaf, total) => {
                (Position::Constant(leaf), Position::Constant(total))
            }
            PositionByKind::Ranks(dim, leaf, total) => (
                Position::Ranks { dim, ranks: leaf },
                Position::Ranks { dim, ranks: total },
            ),
        }
    }
}

// The position by these ranks, for cells of both kinds.
fn same_ranks(alloc: Global, place: u32, ranks: ListOf<u32>) -> Result<PositionByKind, AllocError>
    ensures { IfOk result (λ position. position ≡ same_ranks place ranks) }
{
    let total = ListOf::new(ranks.as_slice().to_vec(alloc)?);
    Ok(PositionByKind::Ranks(place, ranks, total))
}

// The position that a dimension alone means.
fn by_index(
    alloc: Global,
    space: &Space,
    weights: &[Weights],
    cube: u32,
    name: &Name,
) -> Result<Option<PositionByKind>, AllocError>
    requires cube { cube < length space.now.cubes }
    requires weights { AreWeightsOf space.now.dimensions weights.now }
    ensures bound { IfOk result (λ found. found ≡ position_named (axes space.now cube)
        (λ place dimension. Some (same_ranks place (ranks_by_index dimension))) name.now) }
    ensures valid { IfOk result (λ found. IfSome found (IsByKind (axes space.now cube))) }
{
    match axis_called(space, cube, name) {
        Some(place) => {
            let dimension = axis(space, cube, place);
            let weights = axis_weights(space, weights, cube, place);
            let ranks = ranks_by_index(alloc, dimension, weights)?;
            let position = same_ranks(alloc, place, ranks)?;
            Ok(Some(position))
        }
        None => Ok(None),
    }
}

// The position that a dimension means with one list of ranks, for cells of both kinds.
fn by_list(
    alloc: Global,
    space: &Space,
    weights: &[Weights],
    cube: u32,
    name: &Name,
    list: &[(Name, u32)],
) -> Result<Option<PositionByKind>, AllocError>
    requires cube { cube < length space.now.cubes }
    requires weights { AreWeightsOf space.now.dimensions weights.now }
    ensures bound { IfOk result (λ found. found ≡ position_named (axes space.now cube)
        (λ place dimension. option_map (same_ranks place) (filled_ranks list.now dimension)) name.now) }
    ensures valid { IfOk result (λ found. IfSome found (IsByKind (axes space.now cube))) }
{
    match axis_called(space, cube, name) {
        Some(place) => {
            let dimension = axis(space, cube, place);
            let weights = axis_weights(space, weights, cube, place);
            match filled_ranks(alloc, dimension, weights, list)? {
                Some(ranks) => {
                    let position = same_ranks(alloc, place, ranks)?;
                    Ok(Some(position))
                }
                None => Ok(None),
            }
        }
        None => Ok(None),
    }
}

// The position at a place by a list for leaf cells and one for consolidated cells.
fn two_ranks(
    alloc: Global,
    dimension: &Dimension,
    place: u32,
    leaves: &[(Name, u32)],
    totals: &[(Name, u32)],
) -> Result<Option<PositionByKind>, AllocError>
    ensures bound { IfOk result (λ found. found ≡ two_ranks place leaves.now totals.now dimension.now) }
    ensures valid { (dimensions : List Outline) → slice_get dimensions place ≡ Some dimension.now
        → IfOk result (λ found. IfSome found (IsByKind dimensions)) }
{
    let Some(leaf) = plain_ranks(alloc, dimension, false, leaves)? else {
        return Ok(None);
    };
    match plain_ranks(alloc, dimension, true, totals)? {
        Some(total) => Ok(Some(PositionByKind::Ranks(place, leaf, total))),
        None => Ok(None),
    }
}

// The position that a dimension means with a list for leaf cells and one for consolidated cells.
fn by_lists(
    alloc: Global,
    space: &Space,
    cube: u32,
    name: &Name,
    leaves: &[(Name, u32)],
    totals: &[(Name, u32)],
) -> Result<Option<PositionByKind>, AllocError>
    requires { cube < length space.now.cubes }
    ensures bound { IfOk result (λ found. found ≡ position_named (axes space.now cube)
        (λ place. two_ranks place leaves.now totals.now) name.now) }
    ensures valid { IfOk result (λ found. IfSome found (IsByKind (axes space.now cube))) }
{
    match axis_called(space, cube, name) {
        Some(place) => {
            let dimension = axis(space, cube, place);
            two_ranks(alloc, dimension, place, leaves, totals)
        }
        None => Ok(None),
    }
}

/// The position that a word of an order line means for cells of each kind, or None where it means none.
pub fn position_by_kind(
    alloc: Global,
    space: &Space,
    weights: &[Weights],
    cube: u32,
    word: &OrderWord,
) -> Result<Option<PositionByKind>, AllocError>
    requires cube { cube < length space.now.cubes }
    requires weights { AreWeightsOf space.now.dimensions weights.now }
    ensures bound { IfOk result (λ found. found ≡ position_by_kind (axes space.now cube) word.now) }
    ensures valid { IfOk result (λ found. IfSome found (IsByKind (axes space.now cube))) }
{
    match word {
        OrderWord::Constant(number) => {
            if *number <= MAX_WRITTEN {
                Ok(Some(PositionByKind::Constants(*number, *number)))
            } else {
                Ok(None)
            }
        }
        OrderWord::Index(name) => by_index(alloc, space, weights, cube, name),
        OrderWord::Ranks(name, list) => {
            by_list(alloc, space, weights, cube, name, list.as_slice())
        }
        OrderWord::RanksByKind(name, leaves, totals) => {
            by_lists(
                alloc,
                space,
                cube,
                name,
                leaves.as_slice(),
                totals.as_slice(),
            )
        }
        OrderWord::Totals => Ok(Some(PositionByKind::Constants(0, 1))),
        OrderWord::Auto { .. } => Ok(None),
    }
}
