ghost use Rattle.std.specs.Prelude.{◌≡◌, ◌<◌, ◌≤◌, true, All, length, drop};
ghost use Rattle.cube_space.specs.Cells.{IsCell};
ghost use Rattle.cube_space.specs.Layout.{axes_of, sizes_of, most_model_cells};
ghost use Rattle.cube_space.specs.Radix.{product, are_digits};
ghost use Rattle.rule_model.specs.Weights.{AreWeightsOf, leaves_below};
ghost use Rattle.cell_spread.specs.Inside.Counts.{leaf_product};

use cube_space::MAX_DIMENSIONS;
use rule_model::Model;

/// How many leaf cells are below a cell: the product of how many leaves count in each of its elements.
pub fn leaf_count(model: &Model, cell: u64) -> u64
    requires { IsCell model.now.space cell }
    ensures { result ≡ length (leaves_below model.now.space cell) }
{
    let space = model.space();
    let mut at = [0u32; MAX_DIMENSIONS];
    let cube = space.place(cell, &mut at);
    let dims = space.shape(cube).dims.as_slice();
    leaf_product(model, dims, &at[..dims.len()], 0)
}

// The product over these dimensions and elements, from this place on.
#[cycle(leaf_product)]
fn leaf_product(model: &Model, dims: &[u32], at: &[u32], from: usize) -> u64
    requires dims { All (λ dim. dim < length model.now.space.dimensions) dims.now }
    requires at { are_digits (sizes_of (axes_of model.now.space.dimensions dims.now)) at.now ≡ true }
    requires from { from ≤ length dims.now }
    requires room { product (sizes_of (axes_of model.now.space.dimensions (drop from dims.now))) ≤ most_model_cells }
    ensures value { result
        ≡ leaf_product (axes_of model.now.space.dimensions (drop from dims.now)) (drop from at.now) }
    ensures size { result ≤ product (sizes_of (axes_of model.now.space.dimensions (drop from dims.now))) }
{
    if from == dims.len() {
        return 1;
    }
    let leaves = model.weights()[dims[from] as usize].leaves(at[from]).len() as u64;
    leaves * leaf_product(model, dims, at, from + 1)
}
