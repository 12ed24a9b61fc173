ghost use Rattle.std.specs.Prelude.{◌≡◌, ◌⊎◌, ◌<◌, length, All, IfOk};
ghost use Rattle.rule_model.specs.Conditions.{AreCubeRules, AreRules};
ghost use Rattle.rule_tree.specs.Sizes.{IsWithinLimits};
ghost use Rattle.bind_areas.specs.declared.cause.BindCause.TheVariants.{Memory};
ghost use Rattle.bind_arguments.specs.Maps.{AreMapsIn};
ghost use Rattle.model_bind.specs.Foundation.{memory};
ghost use Rattle.model_bind.specs.Rules.{file_name, place_of, cause_of, meaning_stage};
ghost use Rattle.model_bind.specs.Stages.{each, Comes};

use crate::fault::{At, DeployCause, DeployFault};
use crate::rule_files::{RuleFiles, fault_in};
use crate::rule_texts::RuleTexts;
use bind_laws::bound_rules_meet_the_conditions;
use cube_space::Space;
use lists::ListOf;
use rule_bind::{BindAt, BindCause, BindFault, BoundMaps, CubeRules, bind};
use rule_tree::RuleText;
use std::alloc::Global;

/// The rules that the texts of all cubes mean, or the first fault of the first that has one.
pub fn meanings_of(
    alloc: Global,
    space: &Space,
    files: &RuleFiles<'_>,
    texts: &RuleTexts,
) -> Result<ListOf<CubeRules>, DeployFault>
    requires one_each { length texts.now ≡ length space.now.cubes }
    requires within { All IsWithinLimits texts.now }
    ensures comes { Comes (each (meaning_stage space.now files.now) 0 texts.now) result }
    ensures rules { IfOk result (AreRules space.now) }
{
    let mut maps = BoundMaps::new(alloc);
    let mut all = Vec::with_capacity(alloc, texts.len())?;
    for cube in 0..space.cubes() {
        let text = texts.of_cube(cube as usize);
        let rules = meaning_of(alloc, space, &mut maps, files, cube, text)?;
        all.push(rules)?;
    }
    Ok(ListOf::new(all))
}

fn meaning_of(
    alloc: Global,
    space: &Space,
    maps: &mut BoundMaps,
    files: &RuleFiles<'_>,
    cube: u32,
    text: &RuleText,
) -> Result<CubeRules, DeployFault>
    requires cube { cube < length space.now.cubes }
    requires within { IsWithinLimits text.now }
    requires maps { AreMapsIn space.now maps.old }
    ensures comes { Comes (meaning_stage space.now files.now cube text.now) result }
    ensures rules { IfOk result (AreCubeRules space.now cube) }
    ensures maps { AreMapsIn space.now maps.new }
{
    // a space says of itself that it is one, and what is bound there meets the conditions on rules
    let _cells = space.size();
    bound_rules_meet_the_conditions();
    match bind(alloc, space, maps, cube, text) {
        Ok(rules) => Ok(rules),
        Err(fault) => Err(meaning_fault(alloc, files, cube, fault)),
    }
}

fn meaning_fault(alloc: Global, files: &RuleFiles<'_>, cube: u32, fault: BindFault) -> DeployFault
    ensures told { (result ≡ memory) ⊎ (result ≡ record {
      file = file_name files.now cube;
      at = place_of fault.at;
      cause = cause_of fault.cause;
    }) }
    ensures memory { fault.cause ≡ Memory → result ≡ memory }
{
    if fault.cause == BindCause::Memory {
        return DeployFault::memory();
    }
    let at = match fault.at {
        BindAt::Statement(number) => At::Statement(number),
        BindAt::Feeder(number) => At::Feeder(number),
    };
    fault_in(alloc, files, cube, at, cause_of(fault.cause))
}

fn cause_of(cause: BindCause) -> DeployCause
    ensures { result ≡ cause_of cause }
{
    match cause {
        BindCause::UnknownName => DeployCause::UnknownName,
        BindCause::Ambiguous => DeployCause::Ambiguous,
        BindCause::WrongCount => DeployCause::WrongCount,
        BindCause::DynamicReference => DeployCause::DynamicReference,
        BindCause::Unsupported => DeployCause::Unsupported,
        BindCause::Memory => DeployCause::Memory,
    }
}
