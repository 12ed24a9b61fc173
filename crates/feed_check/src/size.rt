ghost use Rattle.std.specs.Prelude.{◌≡◌, ◌<◌, ◌≤◌, length, map, drop, slice_get, slice_index_or, Some};
ghost use Rattle.dim_core.specs.Outline.{Outline};
ghost use Rattle.cube_space.specs.Radix.{product};
ghost use Rattle.cube_space.specs.Layout.{axes, sizes};
ghost use Rattle.cube_space.specs.Cells.{cell_count};
ghost use Rattle.feed_check.specs.Sizes.{leaf_count};
ghost use Rattle.feed_check.specs.Inside.Leaves.{leaf_elements};

use ref_order::{axis, axis_count};
use rule_model::Model;

/// The most leaf cells that a dense cube may have.
pub const MAX_DENSE: u64 = 1_000_000;

/// How many leaves a dimension of a cube has.
fn leaf_elements(model: &Model, cube: u32, dim: usize) -> u32
    requires cube { cube < length model.now.space.cubes }
    requires dim { dim < length (axes model.now.space cube) }
    ensures value { (d : Outline) → slice_get (axes model.now.space cube) dim ≡ Some d → result ≡ leaf_elements d }
    ensures size { result ≤ slice_index_or (sizes model.now.space cube) dim 0 }
{
    let dimension = axis(model, cube, dim);
    let mut count = 0u32;
    'each: for element in 0..dimension.len() {
        if dimension.is_leaf(element) {
            count += 1;
        }
    }
    count
}

/// The product of these numbers from this dimension on.
#[cycle(leaf_product)]
fn leaf_product(model: &Model, cube: u32, dim: usize) -> u64
    requires cube { cube < length model.now.space.cubes }
    requires some { 0 < cell_count model.now.space cube }
    requires dim { dim ≤ length (axes model.now.space cube) }
    ensures value { result ≡ product (map leaf_elements (drop dim (axes model.now.space cube))) }
    ensures size { result ≤ product (drop dim (sizes model.now.space cube)) }
{
    let _space = model.space();
    if dim == axis_count(model, cube) {
        return 1;
    }
    u64::from(leaf_elements(model, cube, dim)) * leaf_product(model, cube, dim + 1)
}

/// How many leaf cells a cube has.
pub fn leaf_count(model: &Model, cube: u32) -> u64
    requires { cube < length model.now.space.cubes }
    ensures { result ≡ leaf_count model.now.space cube }
{
    if model.space().cells(cube) == 0 {
        return 0;
    }
    leaf_product(model, cube, 0)
}
