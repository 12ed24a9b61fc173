ghost use Rattle.std.specs.Prelude.{◌≡◌, ◌⊎◌, ◌≤◌, [], length, Err, IfErr, IfOk, OnOk};
ghost use Rattle.cube_space.specs.Radix.{product};
ghost use Rattle.feed_map.specs.FedCells.{IsFeeding, most_fed};
ghost use Rattle.rule_laws.specs.Cover.{IsCovered};
ghost use Rattle.rule_laws.specs.OrderByPlace.{IsOrderedByPlace};
ghost use Rattle.rule_model.specs.Order.{most_height, position_sizes};
ghost use Rattle.rule_model.specs.System.{system_of, positions_of};
ghost use Rattle.model_bind.specs.Foundation.{memory};
ghost use Rattle.model_bind.specs.Stages.{Comes};
ghost use Rattle.model_deploy.specs.Deployment.{order_refusal, feeders_refusal};
ghost use Rattle.model_deploy.specs.Deployment.{ordered_stage, feeders_stage, fed_stage};

use cell_store::Store;
use check_order::{OrderFault, check_order};
use cube_lex::Position;
use feed_check::{FeedCheckFault, check_feeders};
use feed_map::{FedFault, Feeding};
use feed_sources::SourceModel;
use model_bind::{At, DeployCause, DeployFault, RuleFiles, fault_in};
use rule_model::Model;
use std::alloc::Global;

/// Checks that what formulas read stands before their cells.
pub fn check_ordered(alloc: Global, files: &RuleFiles<'_>, model: &Model) -> Result<(), DeployFault>
    ensures comes { Comes (ordered_stage files.now model.now) result }
    ensures ordered { OnOk result (IsOrderedByPlace (system_of model.now) (positions_of model.now)) }
    ensures low { OnOk result (product (position_sizes model.now) ≤ most_height) }
{
    match check_order(alloc, model) {
        Ok(()) => Ok(()),
        Err(fault) => Err(order_fault(alloc, files, fault)),
    }
}

fn order_fault(alloc: Global, files: &RuleFiles<'_>, fault: OrderFault) -> DeployFault
    ensures { (result ≡ memory) ⊎ (result ≡ order_refusal files.now fault) }
{
    match fault {
        OrderFault::TooHigh(height) => DeployFault::in_model(
            Position::text_begin(),
            DeployCause::TooHigh(height),
        ),
        OrderFault::NotEarlier {
            cube,
            statement,
            reference,
        } => {
            let cause = DeployCause::NotEarlier(reference);
            fault_in(alloc, files, cube, At::Statement(statement), cause)
        }
    }
}

/// Checks that feeders cover the rules, and that no dense cube is too large.
pub fn check_covered(alloc: Global, files: &RuleFiles<'_>, model: &Model) -> Result<(), DeployFault>
    ensures comes { Comes (feeders_stage files.now model.now) result }
    ensures covered { OnOk result (IsCovered (system_of model.now)) }
{
    match check_feeders(model) {
        Ok(()) => Ok(()),
        Err(fault) => Err(feeders_fault(alloc, files, fault)),
    }
}

fn feeders_fault(alloc: Global, files: &RuleFiles<'_>, fault: FeedCheckFault) -> DeployFault
    ensures { (result ≡ memory) ⊎ (result ≡ feeders_refusal files.now fault) }
{
    match fault {
        FeedCheckFault::NotFed {
            cube,
            statement,
            operand,
        } => {
            let cause = DeployCause::NotFed(operand);
            fault_in(alloc, files, cube, At::Statement(statement), cause)
        }
        FeedCheckFault::DenseTooLarge { cube, count } => {
            let cause = DeployCause::DenseTooLarge(count);
            fault_in(alloc, files, cube, At::Statement(1), cause)
        }
    }
}

/// What is fed where nothing is stored. It checks that no more cells are than may be.
pub fn fed_over_nothing(alloc: Global, model: &SourceModel) -> Result<Feeding, DeployFault>
    ensures fed { IfOk result (λ feeding. IsFeeding model.now [] feeding.fed feeding.totals) }
    ensures few { IfOk result (λ feeding. length feeding.fed ≤ most_fed) }
    ensures refused { IfErr result (λ fault. Comes (fed_stage model.now) (Err fault)) }
{
    match Feeding::of(alloc, model, &Store::new(alloc)) {
        Ok(feeding) => {
            // it says of itself that they are few
            let _count = feeding.fed.count();
            Ok(feeding)
        }
        Err(FedFault::FedLimit(count)) => Err(DeployFault::in_model(
            Position::text_begin(),
            DeployCause::FedLimit(count),
        )),
        Err(FedFault::Memory) => Err(DeployFault::memory()),
    }
}
