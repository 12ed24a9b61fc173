ghost use Rattle.std.specs.Prelude.{◌≡◌, ◌<◌, false, length, slice_index_or, None, IfOk};
ghost use Rattle.std.specs.Option.{option_map_or};
ghost use Rattle.model_text.specs.Orders.{has_auto};
ghost use Rattle.rule_model.specs.Conditions.{AreCubeRules, AreRules, IsOrderOf};
ghost use Rattle.rule_model.specs.Weights.{AreWeightsOf};
ghost use Rattle.bind_order.specs.Orders.{IsAnsweredBy};
ghost use Rattle.model_bind.specs.Rules.{is_automatic, line_order, order_stage};
ghost use Rattle.model_bind.specs.Stages.{each, Comes};

use crate::cubes::OrderText;
use crate::fault::{DeployCause, DeployFault};
use crate::foundation::Foundation;
use bind_order::{BindOrderFault, auto_lag, bind_order, lag_order};
use lists::ListOf;
use model_text::OrderLine;
use rule_model::{CubeRules, Order};
use std::alloc::Global;

/// Whether the orders of a model with these order lines are to be found.
pub fn is_automatic(lines: &[OrderText]) -> bool
    ensures { result ≡ is_automatic lines.now }
{
    lines.iter().any(|line| says_auto(line))
}

// Whether a cube has an order line that says `AUTO`.
fn says_auto(line: &OrderText) -> bool
    ensures { result ≡ option_map_or (λ at. has_auto at.1.words) line.now false }
{
    match line {
        Some((_, order)) => order.has_auto(),
        None => false,
    }
}

/// The rules of all cubes in the orders that their order lines mean, or the first line that means none.
pub fn ordered_rules(
    alloc: Global,
    found: &Foundation,
    rules: ListOf<CubeRules>,
) -> Result<ListOf<CubeRules>, DeployFault>
    requires weights { AreWeightsOf found.now.space.dimensions found.now.weights.items }
    requires rules { AreRules found.now.space rules }
    ensures comes { Comes (each (order_stage found.now.space found.now.orders) 0 rules) result }
    ensures rules { IfOk result (AreRules found.now.space) }
{
    let automatic = is_automatic(found.orders.as_slice());
    let mut ordered = Vec::with_capacity(alloc, found.space.cubes() as usize)?;
    let mut cube = 0;
    for rules in rules.into_vec() {
        let rules = by_line(alloc, found, automatic, cube, rules)?;
        ordered.push(rules)?;
        cube += 1;
    }
    Ok(ListOf::new(ordered))
}

// The rules of a cube with the order of its order line, where it has one.
fn by_line(
    alloc: Global,
    found: &Foundation,
    automatic: bool,
    cube: u32,
    rules: CubeRules,
) -> Result<CubeRules, DeployFault>
    requires automatic { automatic ≡ is_automatic found.now.orders }
    requires cube { cube < length found.now.space.cubes }
    requires weights { AreWeightsOf found.now.space.dimensions found.now.weights.items }
    requires rules { AreCubeRules found.now.space cube rules }
    ensures comes { Comes (order_stage found.now.space found.now.orders cube rules) result }
    ensures rules { IfOk result (AreCubeRules found.now.space cube) }
{
    let Some(Some((place, order))) = found.orders.as_slice().get(cube as usize) else {
        return Ok(rules);
    };
    match line_order(alloc, found, automatic, cube, order) {
        Ok(order) => Ok(CubeRules { order, ..rules }),
        Err(BindOrderFault::BadOrder(_)) => Err(DeployFault::in_model(
            *place,
            DeployCause::BadOrder,
        )),
        Err(BindOrderFault::Memory) => Err(DeployFault::memory()),
    }
}

// The order that a line means: that of the lag alone where orders are to be found.
fn line_order(
    alloc: Global,
    found: &Foundation,
    automatic: bool,
    cube: u32,
    line: &OrderLine,
) -> Result<Order, BindOrderFault>
    requires positions { automatic ≡ false → has_auto line.now.words ≡ false }
    requires cube { cube < length found.now.space.cubes }
    requires weights { AreWeightsOf found.now.space.dimensions found.now.weights.items }
    ensures bound { IsAnsweredBy (line_order automatic found.now.space cube line.now) cube result }
    ensures valid { IfOk result (IsOrderOf found.now.space cube) }
{
    if automatic {
        let lag = auto_lag(&found.space, cube, line)?;
        let order = lag_order(alloc, &found.space, &found.weights, cube, lag)?;
        Ok(order)
    } else {
        bind_order(alloc, &found.space, &found.weights, cube, line)
    }
}
