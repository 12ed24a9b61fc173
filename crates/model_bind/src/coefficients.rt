ghost use Rattle.std.specs.Prelude.{IfOk, map};
ghost use Rattle.dim_weights.specs.Table.{IsWeightsOf};
ghost use Rattle.rule_model.specs.Weights.{AreWeightsOf};
ghost use Rattle.model_bind.specs.Foundation.{dimension_refusal, dimensions_refusal, IsAnsweredBy};

use crate::fault::{DeployCause, DeployFault};
use dim_text::DimText;
use dim_weights::{WeightFault, Weights};
use std::alloc::Global;

/// The coefficients of each dimension, or what the first dimension is refused for that has none.
pub fn weights_of(alloc: Global, dims: &[DimText]) -> Result<Vec<Weights>, DeployFault>
    ensures weights { IfOk result (λ weights. AreWeightsOf (map (λ text. text.dimension) dims.now) weights.items) }
    ensures answered { IsAnsweredBy (dimensions_refusal dims.now) result }
{
    let mut weights = Vec::with_capacity(alloc, dims.len())?;
    for text in dims {
        let table = weights_in(alloc, text)?;
        weights.push(table)?;
    }
    Ok(weights)
}

fn weights_in(alloc: Global, text: &DimText) -> Result<Weights, DeployFault>
    ensures weights { IfOk result (λ weights. IsWeightsOf text.now.dimension weights) }
    ensures answered { IsAnsweredBy (dimension_refusal text.now) result }
{
    match Weights::of(alloc, text.dimension()) {
        Ok(weights) => Ok(weights),
        Err(WeightFault::CoefficientTooLarge(element)) => Err(DeployFault::in_model(
            text.position(element),
            DeployCause::CoefficientTooLarge,
        )),
        Err(WeightFault::TooManyPairs(count)) => Err(DeployFault::in_model(
            text.head(),
            DeployCause::TooManyPairs(count),
        )),
        Err(WeightFault::Memory) => Err(DeployFault::memory()),
    }
}
