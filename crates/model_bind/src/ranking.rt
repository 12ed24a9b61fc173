ghost use Rattle.std.specs.Prelude.{◌≡◌, ◌⊎◌, None, Some, IsTrue, IfOk, [], All, length, map, slice_index_or};
ghost use Rattle.std.specs.List.{range_with_len};
ghost use Rattle.rule_model.specs.BoundModel.{no_rules};
ghost use Rattle.rule_model.specs.Conditions.{AreRules};
ghost use Rattle.rule_model.specs.Weights.{AreWeightsOf, HasSmallProducts};
ghost use Rattle.arrow_laws.specs.Ranked.{HasOneLag, with_order};
ghost use Rattle.order_find.specs.Found.{AreFound, IsFindFault};
ghost use Rattle.model_bind.specs.Foundation.{memory};
ghost use Rattle.model_bind.specs.Rules.{is_automatic};
ghost use Rattle.model_bind.specs.Stages.{Comes};
ghost use Rattle.model_bind.specs.Binding.{IsRanked, find_refusal, find_stage, ranked_stage};

use crate::circles::circle_fault;
use crate::fault::{At, DeployCause, DeployFault};
use crate::foundation::Foundation;
use crate::ordering::is_automatic;
use crate::rule_files::{RuleFiles, fault_in};
use arrow_laws::fitting_ranks_make_orders;
use lists::ListOf;
use order_find::{FindFault, find};
use rule_model::{CubeRules, Model, Order};
use std::alloc::{AllocError, Global};

/// The model of what it stands on and of the rules of its cubes, with the orders that are found where they are to be.
/// The rule files name what is refused.
pub fn model_of(
    alloc: Global,
    found: Foundation,
    files: &RuleFiles<'_>,
    rules: ListOf<CubeRules>,
) -> Result<Model, DeployFault>
    requires weights { AreWeightsOf found.space.dimensions found.weights.items }
    requires products { HasSmallProducts found.space }
    requires rules { AreRules found.space rules }
    requires one_lag { IsTrue (is_automatic found.orders) → All HasOneLag rules }
    ensures comes { Comes
        (ranked_stage (is_automatic found.orders) files.now (record { space = found.space; rules = rules })) result }
{
    let automatic = is_automatic(found.orders.as_slice());
    let Foundation { space, weights, .. } = found;
    let model = Model::of(alloc, space, weights, rules.into_vec())?;
    if automatic {
        ranked(alloc, files, model)
    } else {
        Ok(model)
    }
}

// The model with the orders that are found.
fn ranked(alloc: Global, files: &RuleFiles<'_>, model: Model) -> Result<Model, DeployFault>
    requires { All HasOneLag model.rules }
    ensures comes { Comes (find_stage files.now model) result }
{
    match find(alloc, &model) {
        Ok(orders) => Ok(with_orders(alloc, model, orders)?),
        Err(fault) => Err(find_fault(alloc, files, &model, fault)),
    }
}

// The model with these orders of its cubes.
fn with_orders(alloc: Global, model: Model, orders: Vec<Order>) -> Result<Model, AllocError>
    requires found { AreFound model orders.items }
    requires one_lag { All HasOneLag model.rules }
    ensures { IfOk result (IsRanked model) }
{
    // a space says of itself that it is one, and least ranks make orders of its cubes
    let _space = model.space();
    fitting_ranks_make_orders();
    let (space, weights, rules) = model.into_parts();
    let rules = in_orders(rules, orders);
    Model::of(alloc, space, weights, rules)
}

// The rules of each cube, with another order.
fn in_orders(mut rules: Vec<CubeRules>, orders: Vec<Order>) -> Vec<CubeRules>
    requires { length orders.items ≡ length rules.items }
    ensures { result.items ≡ map (λ cube. with_order (slice_index_or rules.items cube no_rules)
        (slice_index_or orders.items cube (record { positions = []; totals = None })))
        (range_with_len 0 (length rules.items)) }
{
    let mut cube = 0;
    for order in orders {
        let own = &mut rules[cube];
        own.order = order;
        cube += 1;
    }
    rules
}

// Why no order is found.
fn find_fault(alloc: Global, files: &RuleFiles<'_>, model: &Model, fault: FindFault) -> DeployFault
    requires { IsFindFault model.now fault }
    ensures { (result ≡ memory) ⊎ (find_refusal model.now.space files.now fault ≡ Some result) }
{
    match fault {
        FindFault::Unlagged {
            cube,
            statement,
            reference,
        } => {
            let cause = DeployCause::Unlagged(reference);
            fault_in(alloc, files, cube, At::Statement(statement), cause)
        }
        FindFault::Cycle(links) => circle_fault(alloc, files, model, &links),
        FindFault::Memory => DeployFault::memory(),
    }
}
