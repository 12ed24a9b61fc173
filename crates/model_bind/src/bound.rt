ghost use Rattle.std.specs.Prelude.{◌≡◌, length, IfOk};
ghost use Rattle.rule_model.specs.Conditions.{AreRules};
ghost use Rattle.rule_model.specs.Weights.{AreWeightsOf};
ghost use Rattle.model_bind.specs.Binding.{binding};
ghost use Rattle.model_bind.specs.Rules.{rules_stage};
ghost use Rattle.model_bind.specs.Stages.{Comes};

use crate::binding::meanings_of;
use crate::fault::DeployFault;
use crate::foundation::{Foundation, foundation_of};
use crate::ordering::ordered_rules;
use crate::ranking::model_of;
use crate::rule_files::RuleFiles;
use crate::texts::texts_of;
use lists::ListOf;
use model_text::ModelText;
use rule_model::{CubeRules, Model};
use std::alloc::Global;

/// A bound model, of which no check has seen the whole, and which of its cubes ask for feeders to be found.
#[derive(Drop)]
pub struct Bound {
    pub model: Model,
    /// One entry a cube.
    pub asking: ListOf<bool>,
}

// The rules of a model's cubes, and which of them ask for feeders to be found.
#[derive(Drop)]
struct BoundRules {
    rules: ListOf<CubeRules>,
    asking: ListOf<bool>,
}

/// The bound model of a text that was read and of the rule files of its cubes. Scripts aren't looked at.
///
/// The answer is the first refusal. Each kind of check is made over the whole model before the next: coefficients by
/// dimension, cells of the cubes, weight products, rule texts, what these mean, order lines, orders that are to be
/// found. Whether what formulas read stands before their cells, and what feeders cover, isn't looked at here.
#[tactic(auto, unfolding(crate::specs::Binding::binding))]
pub fn bind(alloc: Global, text: ModelText, rules: &RuleFiles<'_>) -> Result<Bound, DeployFault>
    requires one_each { length rules.now ≡ length text.cubes }
    ensures comes { Comes (binding text rules.now) result }
{
    let found = foundation_of(alloc, text)?;
    let bound = rules_of(alloc, &found, rules)?;
    let model = model_of(alloc, found, rules, bound.rules)?;
    Ok(Bound {
        model,
        asking: bound.asking,
    })
}

// The rules of each cube with its order, over what the model stands on and from the rule files of the cubes.
#[tactic(auto, unfolding(crate::specs::Rules::rules_stage))]
fn rules_of(
    alloc: Global,
    found: &Foundation,
    files: &RuleFiles<'_>,
) -> Result<BoundRules, DeployFault>
    requires one_each { length files.now ≡ length found.now.space.cubes }
    requires weights { AreWeightsOf found.now.space.dimensions found.now.weights.items }
    ensures comes { Comes (rules_stage found.now.space found.now.orders files.now) result }
    ensures rules { IfOk result (λ bound. AreRules found.now.space bound.rules) }
{
    let texts = texts_of(alloc, files)?;
    let asking = texts.asking(alloc)?;
    let meant = meanings_of(alloc, &found.space, files, &texts)?;
    let rules = ordered_rules(alloc, found, meant)?;
    Ok(BoundRules { rules, asking })
}
