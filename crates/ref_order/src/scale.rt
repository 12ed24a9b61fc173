ghost use Rattle.std.specs.Prelude.{◌≡◌, ◌<◌, ◌≤◌, length, Some, slice_get, slice_index_or};
ghost use Rattle.dim_core.specs.Outline.{Outline};
ghost use Rattle.dim_weights.specs.Table.{IsWeightsOf};
ghost use Rattle.cube_space.specs.Layout.{axes, sizes, most_dimensions};
ghost use Rattle.cube_space.specs.Cells.{IsSpace};
ghost use Rattle.rule_model.specs.declared.order.Position.TheVariants.{Constant};
ghost use Rattle.rule_model.specs.BoundModel.{rules_of};
ghost use Rattle.rule_model.specs.Order.{positions_for};
ghost use Rattle.order_laws.specs.Scales.{scale_of, position_scale, rank_at, level_in, is_leaf_element};
ghost use Rattle.ref_order.specs.Scaled.{scale_by};

use dim_core::Dimension;
use dim_weights::Weights;
use rule_model::{Model, Position};

/// How many positions the order of a cube has at most. At the place after the last one stands the level.
pub const MAX_POSITIONS: u32 = 8;

/// What the cells of a cube of a kind, `true` for leaf cells, have at a position or as their level.
#[derive(Clone, Copy)]
pub struct KindScale<'a> {
    pub model: &'a Model,
    pub cube: u32,
    pub kind: bool,
    pub place: u32,
}

/// A dimension of a cube, by its place.
pub fn axis(model: &Model, cube: u32, dim: usize) -> &Dimension
    requires cube { cube < length model.now.space.cubes }
    requires dim { dim < length (axes model.now.space cube) }
    ensures axis { slice_get (axes model.now.space cube) dim ≡ Some result.now }
    ensures size { slice_index_or (sizes model.now.space cube) dim 0 ≡ length result.now.elements }
    ensures valid { IsSpace model.now.space }
{
    let space = model.space();
    space.dimension(space.shape(cube).dims.as_slice()[dim])
}

/// How much the leaves of a dimension of a cube, by its place, count in its elements.
pub fn weights(model: &Model, cube: u32, dim: usize) -> &Weights
    requires cube { cube < length model.now.space.cubes }
    requires dim { dim < length (axes model.now.space cube) }
    ensures { (d : Outline) → slice_get (axes model.now.space cube) dim ≡ Some d → IsWeightsOf d result.now }
{
    let number = model.space().shape(cube).dims.as_slice()[dim];
    &model.weights()[number as usize]
}

/// How many dimensions a cube has.
pub fn axis_count(model: &Model, cube: u32) -> usize
    requires { cube < length model.now.space.cubes }
    ensures count { result ≡ length (axes model.now.space cube) }
    ensures few { result ≤ most_dimensions }
{
    model.space().shape(cube).dims.as_slice().len()
}

/// Whether an element of a dimension of a cube is a leaf.
pub fn is_leaf_element(model: &Model, cube: u32, dim: usize, element: u32) -> bool
    requires cube { cube < length model.now.space.cubes }
    requires dim { dim < length (axes model.now.space cube) }
    requires element { element < slice_index_or (sizes model.now.space cube) dim 0 }
    ensures { result ≡ is_leaf_element (axes model.now.space cube) dim element }
{
    axis(model, cube, dim).is_leaf(element)
}

// The positions of the order of a cube for cells of a kind.
fn positions(model: &Model, cube: u32, kind: bool) -> &[Position]
    requires { cube < length model.now.space.cubes }
    ensures { result.now ≡ positions_for kind (rules_of model.now cube).order }
{
    let order = &model.rules(cube).order;
    if kind {
        return order.positions.as_slice();
    }
    match &order.totals {
        Some(totals) => totals.as_slice(),
        None => order.positions.as_slice(),
    }
}

/// A kind of cells that have the same at a place: leaf cells, but where the cube has positions of their own for
/// consolidated cells.
#[tactic(auto, using(crate::proofs::Scaled::alike_late, crate::proofs::Scaled::alike_none))]
pub fn kind_alike(scale: KindScale) -> bool
    requires { scale.cube < length scale.model.now.space.cubes }
    ensures { scale_of scale.entry.model.now scale.entry.cube result scale.entry.place ≡ scale_by scale.entry }
{
    if scale.place >= MAX_POSITIONS {
        return true;
    }
    match &scale.model.rules(scale.cube).order.totals {
        Some(_) => scale.kind,
        None => true,
    }
}

/// What a cell has at a position, or as its level, whatever its elements are.
#[tactic(auto, unfolding(order_laws::specs::Scales::scale_of))]
pub fn base(scale: KindScale) -> u32
    requires { scale.cube < length scale.model.now.space.cubes }
    ensures { result ≡ (scale_by scale.entry).base }
{
    if scale.place < MAX_POSITIONS {
        constant(
            positions(scale.model, scale.cube, scale.kind),
            scale.place as usize,
        )
    } else {
        0
    }
}

/// What an element adds to it.
#[tactic(auto, unfolding(order_laws::specs::Scales::scale_of))]
pub fn worth(scale: KindScale, dim: usize, element: u32) -> u32
    requires cube { scale.cube < length scale.model.now.space.cubes }
    requires dim { dim < length (axes scale.model.now.space scale.cube) }
    requires element { element < slice_index_or (sizes scale.model.now.space scale.cube) dim 0 }
    ensures { result ≡ (scale_by scale.entry).worth dim element }
{
    if scale.place < MAX_POSITIONS {
        let positions = positions(scale.model, scale.cube, scale.kind);
        rank(positions, scale.place as usize, dim, element)
    } else {
        level(scale.model, scale.cube, dim, element)
    }
}

fn constant(positions: &[Position], place: usize) -> u32
    ensures { result ≡ (position_scale (slice_index_or positions.now place (Constant 0))).base }
{
    match positions.get(place) {
        Some(Position::Constant(number)) => *number,
        _ => 0,
    }
}

fn rank(positions: &[Position], place: usize, dim: usize, element: u32) -> u32
    ensures { result ≡ (position_scale (slice_index_or positions.now place (Constant 0))).worth dim element }
{
    match positions.get(place) {
        Some(Position::Ranks { dim: own, ranks }) => rank_in(ranks.as_slice(), *own, dim, element),
        _ => 0,
    }
}

fn rank_in(ranks: &[u32], own: u32, dim: usize, element: u32) -> u32
    ensures { result ≡ rank_at ranks.now own dim element }
{
    if dim != own as usize {
        return 0;
    }
    match ranks.get(element as usize) {
        Some(rank) => *rank,
        None => 0,
    }
}

fn level(model: &Model, cube: u32, dim: usize, element: u32) -> u32
    requires cube { cube < length model.now.space.cubes }
    requires dim { dim < length (axes model.now.space cube) }
    requires element { element < slice_index_or (sizes model.now.space cube) dim 0 }
    ensures { result ≡ level_in (axes model.now.space cube) dim element }
{
    axis(model, cube, dim).level(element)
}
