ghost use Rattle.std.specs.Prelude.{◌≡◌, IfOk, OnOk};
ghost use Rattle.rule_model.specs.Weights.{AreWeightsOf, HasSmallProducts};
ghost use Rattle.model_bind.specs.Foundation.{layout_of, order_lines, foundation_refusal, IsAnsweredBy};

use crate::coefficients::weights_of;
use crate::cubes::{Cubes, OrderText, cubes_of, dimensions_of, places_of, space_of};
use crate::fault::DeployFault;
use crate::products::check_products;
use cube_space::Space;
use dim_weights::Weights;
use lists::ListOf;
use model_text::ModelText;
use std::alloc::Global;

/// What a model stands on: its dimensions and cubes, and the coefficients of each dimension. Beside it are the order
/// lines of the cubes, which aren't looked at yet.
#[derive(Drop)]
pub struct Foundation {
    pub space: Space,
    pub weights: Vec<Weights>,
    pub orders: ListOf<OrderText>,
}

/// The dimensions, the cubes and the coefficients of a text that was read.
pub fn foundation_of(alloc: Global, text: ModelText) -> Result<Foundation, DeployFault>
    ensures space { IfOk result (λ found. found.space ≡ layout_of text) }
    ensures weights { IfOk result (λ found. AreWeightsOf found.space.dimensions found.weights.items) }
    ensures products { IfOk result (λ found. HasSmallProducts found.space) }
    ensures orders { IfOk result (λ found. found.orders ≡ order_lines text.cubes) }
    ensures answered { IsAnsweredBy (foundation_refusal text) result }
{
    let weights = weights_of(alloc, text.dims())?;
    let (dims, cubes, _scripts) = text.into_parts();
    let places = places_of(alloc, &cubes)?;
    let dimensions = dimensions_of(alloc, dims)?;
    let Cubes { shapes, orders } = cubes_of(alloc, cubes)?;
    let space = space_of(alloc, dimensions, shapes, &places)?;
    check_products(&space, &weights, &places)?;
    Ok(Foundation {
        space,
        weights,
        orders,
    })
}
