ghost use Rattle.std.specs.Prelude.{◌≡◌, ◌<◌, ◌≤◌, true, IsTrue, IsFalse, Some, None, IfSome, unsigned_abs};
ghost use Rattle.std.specs.Prelude.{length, map, take, drop, All};
ghost use Rattle.cube_space.specs.Layout.{axes_of, sizes_of, most_dimensions};
ghost use Rattle.cube_space.specs.Cells.{IsCell};
ghost use Rattle.cube_space.specs.Radix.{product, are_digits};
ghost use Rattle.rule_model.specs.Weights.{weight, coef_product, greatest_coef};
ghost use Rattle.rule_model.specs.Named.{cell_named, elements_named};
ghost use Rattle.rule_model.specs.Weights.{most_weight_product};

use crate::model::Model;
use cube_space::{MAX_DIMENSIONS, Space};
use dim_name::Name;

/// The cell of a cube and of one element of each of its dimensions, in their order, all by name. None where the cube or
/// an element is unknown, or there are too many elements or too few.
pub fn cell_of(model: &Model, cube: &Name, names: &[Name]) -> Option<u64>
    ensures value { result ≡ cell_named model.now.space cube.now names.now }
    ensures cell { IfSome result (IsCell model.now.space) }
{
    let space = model.space();
    let Some(cube) = space.cube_of(cube) else {
        return None;
    };
    let dims = space.shape(cube).dims.as_slice();
    let mut at = [0u32; MAX_DIMENSIONS];
    if !find_elements(space, dims, names, &mut at) {
        return None;
    }
    let (at, _) = at.split_at(dims.len());
    space.number(cube, at)
}

// Puts the elements of these names, one of each of the dimensions, into the first places of `at`; false where there are
// no such elements.
fn find_elements(
    space: &Space,
    dims: &[u32],
    names: &[Name],
    at: &mut [u32; MAX_DIMENSIONS],
) -> bool
    requires dims { All (λ dim. dim < length space.now.dimensions) dims.now }
    requires room { length dims.now ≤ most_dimensions }
    ensures found { IsTrue result →
        elements_named (axes_of space.now.dimensions dims.now) names.now ≡ Some (take (length dims.now) at.new) }
    ensures missing { IsFalse result → elements_named (axes_of space.now.dimensions dims.now) names.now ≡ None }
{
    if dims.len() != names.len() {
        return false;
    }
    'each: for place in 0..dims.len() {
        match space.dimension(dims[place]).index_of(&names[place]) {
            Some(element) => at[place] = element,
            None => return false,
        }
    }
    true
}

/// The weight of a leaf cell in a cell: the product, over the dimensions, of how much its element counts in the cell's.
/// It is 0 where their cubes differ.
pub fn weight(model: &Model, cell: u64, leaf: u64) -> i64
    requires cell { IsCell model.now.space cell }
    requires leaf { IsCell model.now.space leaf }
    ensures value { result ≡ weight model.now.space cell leaf }
    ensures size { unsigned_abs result ≤ most_weight_product }
{
    let space = model.space();
    let mut at = [0u32; MAX_DIMENSIONS];
    let mut below = [0u32; MAX_DIMENSIONS];
    let cube = space.place(cell, &mut at);
    if space.place(leaf, &mut below) != cube {
        return 0;
    }
    let dims = space.shape(cube).dims.as_slice();
    coefficients(model, dims, &at[..dims.len()], &below[..dims.len()], 0)
}

// The product, from this place on, of how much the one elements count in the others, each in its dimension.
#[cycle(coefficients)]
fn coefficients(model: &Model, dims: &[u32], at: &[u32], below: &[u32], from: usize) -> i64
    requires dims { All (λ dim. dim < length model.now.space.dimensions) dims.now }
    requires at { are_digits (sizes_of (axes_of model.now.space.dimensions dims.now)) at.now ≡ true }
    requires below { are_digits (sizes_of (axes_of model.now.space.dimensions dims.now)) below.now ≡ true }
    requires small { product (map greatest_coef (axes_of model.now.space.dimensions (drop from dims.now)))
        ≤ most_weight_product }
    requires from { from ≤ length dims.now }
    ensures value { result ≡ coef_product (axes_of model.now.space.dimensions (drop from dims.now))
        (drop from at.now) (drop from below.now) }
    ensures size { unsigned_abs result
        ≤ product (map greatest_coef (axes_of model.now.space.dimensions (drop from dims.now))) }
{
    if from == dims.len() {
        return 1;
    }
    let coefficient = model.weights()[dims[from] as usize].coef(at[from], below[from]);
    if coefficient == 0 {
        return 0;
    }
    coefficient * coefficients(model, dims, at, below, from + 1)
}
