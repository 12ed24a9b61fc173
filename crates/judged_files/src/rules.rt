ghost use Rattle.std.specs.Prelude.{◌≡◌, ◌+◌, ◌<◌, [], length, take, IfOk, IfSome, OnOk, unwrap_or};
ghost use Rattle.file_passes.specs.Halting.{Judges};
ghost use Rattle.judged_files.specs.Inside.Judging.{IsHaltFor};
ghost use Rattle.judged_files.specs.Inside.RuleFiles.{IsEarlierWith};
ghost use Rattle.judged_files.specs.Refusals.{deploy_refusal, file_or, place_of};
ghost use Rattle.judged_files.specs.Rules.{all_rule_names, rule_name, rule_names, rule_files};
ghost use Rattle.judged_files.specs.Rules.{deployment_judgement, binding_judgement};
ghost use Rattle.cube_words.specs.Words.{texts_of};

use crate::refusing::deploy_cause;
use accepted::Accepted;
use file_passes::{FilePlace, Halt, Refusal, Source, file_name, source_of};
use lists::ListOf;
use model_bind::{At, Bound, DeployFault, RuleFiles, bind};
use model_deploy::deploy;
use model_text::{CubeText, ModelText};
use std::alloc::{AllocError, Global};

/// The names of the cubes' rule files, in cube order.
pub fn rule_names(alloc: Global, cubes: &[CubeText]) -> Result<Vec<String>, AllocError>
    ensures { IfOk result (λ names. texts_of names.items ≡ rule_names cubes.now) }
{
    let mut names = Vec::new(alloc);
    for cube in cubes {
        if let Some((_, file)) = &cube.rules {
            names.push(file_name(alloc, file.as_slice())?)?;
        }
    }
    Ok(names)
}

/// The name of the rule file of each cube, empty where a cube has none.
pub fn all_rule_names(alloc: Global, cubes: &[CubeText]) -> Result<ListOf<ListOf<u8>>, AllocError>
    ensures { IfOk result (λ names. names ≡ all_rule_names cubes.now) }
{
    let mut names = Vec::with_capacity(alloc, cubes.len())?;
    for cube in cubes {
        names.push(rule_name_or_empty(alloc, cube)?)?;
    }
    Ok(ListOf::new(names))
}

// The name of the rule file of a cube, empty where it has none.
fn rule_name_or_empty(alloc: Global, cube: &CubeText) -> Result<ListOf<u8>, AllocError>
    ensures { IfOk result (λ name. name ≡ unwrap_or (rule_name cube.now) []) }
{
    match &cube.rules {
        Some((_, file)) => Ok(ListOf::new(Vec::from_slice(alloc, file.as_slice())?)),
        None => Ok(ListOf::new(Vec::new(alloc))),
    }
}

/// The model of a model text, which stands in this file, and of the rule files of its cubes among those that were read.
pub fn model_of(
    alloc: Global,
    file: &str,
    text: ModelText,
    sources: &[Source<'_>],
) -> Result<Accepted, Halt>
    ensures { Judges (deployment_judgement file.now text sources.now) result }
{
    let Ok(rules) = rule_files(alloc, text.cubes(), sources) else {
        return Err(Halt::Memory);
    };
    match deploy(alloc, text, &rules) {
        Ok(model) => Ok(model),
        Err(fault) => Err(deploy_halt(alloc, file, fault)),
    }
}

/// The bound model of a model text, which stands in this file, and of the rule files of its cubes among those that were
/// read. No check has seen the whole of it.
pub fn bound_of(
    alloc: Global,
    file: &str,
    text: ModelText,
    sources: &[Source<'_>],
) -> Result<Bound, Halt>
    ensures { Judges (binding_judgement file.now text sources.now) result }
{
    let Ok(rules) = rule_files(alloc, text.cubes(), sources) else {
        return Err(Halt::Memory);
    };
    match bind(alloc, text, &rules) {
        Ok(bound) => Ok(bound),
        Err(fault) => Err(deploy_halt(alloc, file, fault)),
    }
}

// The rule file of each cube.
fn rule_files<'a>(
    alloc: Global,
    cubes: &[CubeText],
    sources: &'a [Source<'_>],
) -> Result<RuleFiles<'a>, AllocError>
    ensures { IfOk result (λ files. files ≡ rule_files sources.now cubes.now) }
{
    let mut files = RuleFiles::new(alloc);
    for cube in 0..cubes.len() {
        add_file(&mut files, cubes, cube, sources)?;
    }
    Ok(files)
}

// The rule file of one more cube, which it may share with an earlier one.
fn add_file<'a>(
    files: &mut RuleFiles<'a>,
    cubes: &[CubeText],
    cube: usize,
    sources: &'a [Source<'_>],
) -> Result<(), AllocError>
    requires cube { cube < length cubes.now }
    requires so_far { files.old ≡ rule_files sources.now (take cube cubes.now) }
    ensures { OnOk result (files.new ≡ rule_files sources.now (take (cube + 1) cubes.now)) }
{
    let Some((_, name)) = &cubes[cube].rules else {
        return files.push_none();
    };
    if let Some(earlier) = earlier_with(cubes, cube, name.as_slice()) {
        return files.push_shared(earlier);
    }
    match source_of(sources, name.as_slice()) {
        Some(source) => files.push_file(source.name().as_bytes(), source.bytes()),
        None => files.push_none(),
    }
}

// An earlier cube with the rule file of this name.
fn earlier_with(cubes: &[CubeText], cube: usize, name: &[u8]) -> Option<usize>
    requires { cube < length cubes.now }
    ensures { IfSome result (λ earlier. IsEarlierWith cubes.now cube name.now earlier) }
{
    for earlier in 0..cube {
        if let Some((_, file)) = &cubes[earlier].rules
            && file.as_slice() == name
        {
            return Some(earlier);
        }
    }
    None
}

// Why a run goes no further whose model isn't deployed.
fn deploy_halt(alloc: Global, model: &str, fault: DeployFault) -> Halt
    ensures { IsHaltFor (deploy_refusal model.now fault) result }
{
    let DeployFault { file, at, cause } = fault;
    let Some(cause) = deploy_cause(cause) else {
        return Halt::Memory;
    };
    let at = place_of(at);
    match file_or(alloc, model, file) {
        Ok(file) => Halt::Refused(Refusal { file, at, cause }),
        Err(_) => Halt::Memory,
    }
}

// The name of a rule file, or else of the model file.
fn file_or(alloc: Global, model: &str, file: Option<ListOf<u8>>) -> Result<ListOf<u8>, AllocError>
    ensures { IfOk result (λ name. name ≡ file_or model.now file) }
{
    match file {
        Some(file) => Ok(file),
        None => Ok(ListOf::new(Vec::from_slice(alloc, model.as_bytes())?)),
    }
}

fn place_of(at: At) -> FilePlace
    ensures { result ≡ place_of at }
{
    match at {
        At::Text(place) => FilePlace::Text(place),
        At::Statement(statement) => FilePlace::Statement(statement),
        At::Feeder(feeder) => FilePlace::Feeder(feeder),
    }
}
