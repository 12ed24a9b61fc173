ghost use Rattle.std.specs.Prelude.{◌≡◌, ◌<◌, ℕ, Some, length, slice_get, slice_index_or};
ghost use Rattle.dim_core.specs.Outline.{Outline};
ghost use Rattle.dim_weights.specs.Table.{IsWeightsOf};
ghost use Rattle.cube_space.specs.Layout.{axes, dims_of};

use cube_space::{Space, axis_number};
use dim_weights::Weights;
use rule_model::Model;

/// How much the leaves of a dimension of a cube, by its place, count in its elements.
pub fn weights(model: &Model, cube: u32, place: u32) -> &Weights
    requires cube { cube < length model.now.space.cubes }
    requires place { place < length (axes model.now.space cube) }
    ensures { (d : Outline) → slice_get (axes model.now.space cube) place ≡ Some d → IsWeightsOf d result.now }
{
    let number = axis_number(model.space(), cube, place);
    &model.weights()[number as usize]
}

/// The number of the dimension of a cube at a place, or 0 where there is no such place.
pub fn number_at(space: &Space, cube: u32, place: u32) -> u32
    requires { cube < length space.now.cubes }
    ensures { result ≡ slice_index_or (dims_of space.now cube) place 0 }
{
    match space.shape(cube).dims.as_slice().get(place as usize) {
        Some(number) => *number,
        None => 0,
    }
}
