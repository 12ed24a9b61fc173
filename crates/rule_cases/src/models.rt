ghost use Rattle.std.specs.Prelude.{◌≡◌, ◌+◌, length, IfOk, OnOk};
ghost use Rattle.rule_laws.specs.OrderByPlace.{IsOrderedByPlace};
ghost use Rattle.rule_model.specs.System.{system_of, positions_of};
ghost use Rattle.rule_dense.specs.Limits.{IsLow};

use crate::files::Files;
use crate::refusal::Refusal;
use check_order::check_order;
use model_bind::{At, DeployCause, DeployFault, RuleFiles, bind};
use rule_model::Model;
use std::alloc::{AllocError, Global};

/// The model of these files, whose order was checked. Feeders weren't, so that plain evaluation and what is fed are
/// told of models too that deployment refuses. Where there is none the first refusal, as `refused model: line 3:
/// Syntax`.
pub fn model_of(alloc: Global, files: &Files) -> Result<Model, Refusal>
    ensures ordered { IfOk result (λ model. IsOrderedByPlace (system_of model) (positions_of model)) }
    ensures low { IfOk result (λ model. IsLow model) }
{
    let model = unordered(alloc, files)?;
    match check_order(alloc, &model) {
        Ok(()) => Ok(model),
        Err(fault) => Err(Refusal::of(alloc, &fault)),
    }
}

// The model of these files, of which no check has seen the whole.
fn unordered(alloc: Global, files: &Files) -> Result<Model, Refusal> {
    let text = match model_text::read(alloc, files.file("model")) {
        Ok(text) => text,
        Err(fault) => return Err(Refusal::of(alloc, &fault)),
    };
    let rules = rule_files(alloc, files, text.cubes().len())?;
    match bind(alloc, text, &rules) {
        Ok(bound) => Ok(bound.model),
        Err(fault) => Err(told(alloc, fault)),
    }
}

fn rule_files<'a>(alloc: Global, files: &'a Files, cubes: usize) -> Result<RuleFiles<'a>, Refusal>
    ensures { IfOk result (λ all. length all ≡ cubes) }
{
    let mut all = RuleFiles::new(alloc);
    for cube in 0..cubes {
        add_file(alloc, files, cube, &mut all)?;
    }
    Ok(all)
}

// Adds the rule file of a cube, where the case has one.
fn add_file<'a>(
    alloc: Global,
    files: &'a Files,
    cube: usize,
    all: &mut RuleFiles<'a>,
) -> Result<(), Refusal>
    ensures { OnOk result (length all.new ≡ length all.old + 1) }
{
    let name = Files::rules_of(alloc, cube)?;
    match files.find(&name) {
        Some((name, text)) => Ok(all.push_file(name.as_bytes(), text)?),
        None => Ok(all.push_none()?),
    }
}

fn told(alloc: Global, fault: DeployFault) -> Refusal {
    match fault_told(alloc, &fault) {
        Ok(text) => Refusal::Told(text),
        Err(_) => Refusal::Memory,
    }
}

fn fault_told(alloc: Global, fault: &DeployFault) -> Result<String, AllocError> {
    let DeployFault { file, at, cause } = fault;
    if matches!(cause, DeployCause::Memory) {
        return Err(AllocError);
    }
    let name = match file {
        Some(name) => std::str::from_utf8(name.as_slice()).unwrap_or("no UTF-8"),
        None => "model",
    };
    match at {
        At::Text(place) => {
            let line = place.line;
            format!(in alloc; "refused {name}: line {line}: {cause:?}")
        }
        At::Statement(number) => format!(in alloc; "refused {name}: statement {number}: {cause:?}"),
        At::Feeder(number) => format!(in alloc; "refused {name}: feeder {number}: {cause:?}"),
    }
}

/// How many statements and feeders the cubes of a model have: `accepted statements 4 feeders 3`.
pub fn counts_of(alloc: Global, model: &Model) -> Result<String, Refusal> {
    let mut statements = 0u64;
    let mut feeders = 0u64;
    for cube in 0..model.space().cubes() {
        let rules = model.rules(cube);
        statements = statements.wrapping_add(rules.statements.as_slice().len() as u64);
        feeders = feeders.wrapping_add(rules.feeders.as_slice().len() as u64);
    }
    let told = format!(in alloc; "accepted statements {statements} feeders {feeders}")?;
    Ok(told)
}
