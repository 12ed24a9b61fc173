ghost use Rattle.std.specs.Prelude.{◌≡◌, ◌≤◌, length, IfOk};
ghost use Rattle.cube_space.specs.Radix.{product};
ghost use Rattle.rule_model.specs.Order.{most_height, position_sizes};
ghost use Rattle.model_bind.specs.Stages.{Comes};
ghost use Rattle.model_deploy.specs.Deployment.{checked, deployment, fed_model};

use crate::checks::{check_covered, check_ordered, fed_over_nothing};
use accepted::Accepted;
use feed_find::{find, with_found};
use feed_sources::SourceModel;
use model_bind::{Bound, DeployFault, RuleFiles, bind};
use model_text::ModelText;
use rule_model::Model;
use std::alloc::{AllocError, Global};

/// The accepted model of a text that was read and of the rule files of its cubes. Scripts aren't looked at.
///
/// The answer is the first refusal. Each kind of check is made over the whole model before the next: those of binding,
/// then the order of all that formulas read, feeders, and the cells that are fed where nothing is stored. Feeders that
/// are to be found are added before these three.
#[tactic(auto, unfolding(crate::specs::Deployment::deployment))]
pub fn deploy(
    alloc: Global,
    text: ModelText,
    rules: &RuleFiles<'_>,
) -> Result<Accepted, DeployFault>
    requires one_each { length rules.now ≡ length text.cubes }
    ensures comes { Comes (deployment text rules.now) result }
    ensures low { IfOk result (λ model. product (position_sizes model) ≤ most_height) }
{
    let bound = bind(alloc, text, rules)?;
    let model = fed_model(alloc, bound)?;
    checked(alloc, rules, model)
}

// The bound model with the feeders that are found for the cubes that ask for them.
fn fed_model(alloc: Global, bound: Bound) -> Result<Model, AllocError>
    ensures { IfOk result (λ model. model ≡ fed_model bound) }
{
    let Bound { model, asking } = bound;
    let found = find(alloc, &model, asking.as_slice())?;
    with_found(alloc, model, found.feeders)
}

// The accepted model, where it passes the checks of a whole model.
fn checked(alloc: Global, files: &RuleFiles<'_>, model: Model) -> Result<Accepted, DeployFault>
    ensures comes { Comes (checked files.now model) result }
    ensures low { IfOk result (λ model. product (position_sizes model) ≤ most_height) }
{
    check_ordered(alloc, files, &model)?;
    check_covered(alloc, files, &model)?;
    let sources = SourceModel::of(alloc, model)?;
    // a model says of itself that its space is one, and its rules are those of its cubes
    let _space = sources.space();
    let feeding = fed_over_nothing(alloc, &sources)?;
    Ok(Accepted::new(sources, feeding))
}
