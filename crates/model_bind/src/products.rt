ghost use Rattle.std.specs.Prelude.{◌≡◌, ◌<◌, OnOk, length, min};
ghost use Rattle.rule_model.specs.Weights.{AreWeightsOf, HasSmallProducts, weight_product};
ghost use Rattle.model_bind.specs.Foundation.{products_refusal, IsAnsweredBy};

use crate::cubes::place_of;
use crate::fault::{DeployCause, DeployFault};
use cube_lex::Position;
use cube_space::Space;
use dim_weights::Weights;
use rule_model::MAX_WEIGHT_PRODUCT;

/// Whether each weight product is small, or else the refusal of the first cube of which it isn't.
pub fn check_products(
    space: &Space,
    weights: &[Weights],
    places: &[Position],
) -> Result<(), DeployFault>
    requires { AreWeightsOf space.now.dimensions weights.now }
    ensures small { OnOk result (HasSmallProducts space.now) }
    ensures answered { IsAnsweredBy (products_refusal places.now space.now) result }
{
    for cube in 0..space.cubes() {
        if weight_product(space, weights, cube) > MAX_WEIGHT_PRODUCT {
            return Err(DeployFault::in_model(place_of(places, cube), DeployCause::WeightProduct));
        }
    }
    Ok(())
}

// The weight product of a cube, or the greatest number where it is beyond that.
fn weight_product(space: &Space, weights: &[Weights], cube: u32) -> u64
    requires weights { AreWeightsOf space.now.dimensions weights.now }
    requires cube { cube < length space.now.cubes }
    ensures { result ≡ min (weight_product space.now cube) u64.MAX }
{
    // a space says of itself that its cubes name dimensions in range
    let _cells = space.size();
    let dims = space.shape(cube).dims.as_slice();
    let mut product: u64 = 1;
    for dim in dims {
        product = product.saturating_mul(weights[*dim as usize].greatest().unsigned_abs());
    }
    product
}
