ghost use Rattle.std.specs.Prelude.{◌≡◌, ◌<◌, Some, length, slice_get};
ghost use Rattle.dim_core.specs.Outline.{Outline};
ghost use Rattle.dim_weights.specs.Table.{IsWeightsOf};
ghost use Rattle.rule_model.specs.Weights.{AreWeightsOf};
ghost use Rattle.cube_space.specs.Layout.{axes};

use cube_space::{Space, axis_number};
use dim_weights::Weights;

/// The coefficients of the dimension of a cube at a place.
pub fn axis_weights<'a>(space: &Space, weights: &'a [Weights], cube: u32, place: u32) -> &'a Weights
    requires cube { cube < length space.now.cubes }
    requires weights { AreWeightsOf space.now.dimensions weights.now }
    requires place { place < length (axes space.now cube) }
    ensures { (d : Outline) → slice_get (axes space.now cube) place ≡ Some d → IsWeightsOf d result.now }
{
    let number = axis_number(space, cube, place);
    &weights[number as usize]
}
