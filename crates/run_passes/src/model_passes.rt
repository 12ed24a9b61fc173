ghost use Rattle.std.specs.Prelude.{◌≡◌, ◌≤◌, length};
ghost use Rattle.cube_words.specs.Words.{texts_of};
ghost use Rattle.file_passes.specs.Halting.{Comes};
ghost use Rattle.file_passes.specs.Outside.{outside};
ghost use Rattle.model_text.specs.Contents.{most_scripts};
ghost use Rattle.run_passes.specs.Inside.Plans.{behind_text, behind_rules};
ghost use Rattle.run_passes.specs.RefusalOrder.{text_pass, deploy_pass, scripts_pass, model_pass};

use accepted::Accepted;
use cube_outside::{Extent, Files};
use dim_name::Name;
use file_passes::{Halt, Readings, obtain, obtain_all};
use judged_files::{
    ModelFiles, all_rule_names, model_of, rule_names, script_files, script_names, scripts_of,
    text_of,
};
use lists::ListOf;
use model_text::ModelText;
use script_bound::BoundScript;
use std::alloc::Global;
use std::marker::Model;

/// How much of a text is read: one byte more than it may have, so that a longer one is seen to be too long.
pub(crate) const AS_TEXT: Extent = Extent::Front((1 << 30) + 1);

/// A model that was accepted, with its files.
#[derive(Drop)]
pub(crate) struct Checked {
    pub(crate) model: Accepted,
    pub(crate) files: ModelFiles,
}

impl Model for Checked {
    ghost use Rattle.std.specs.Coded.{codes};
    ghost use Rattle.judged_files.specs.ModelFiles.{Checked as CheckedOf};
    ghost use Rattle.rule_laws.specs.contracts.formula.Formula as formula;
    ghost use Rattle.script_bound.specs.contracts.script.BoundScript as script;

    ghost Value = { CheckedOf };

    ghost coded = { Prim.hlevel (codes, formula.the_row.coded, script.the_row.coded) };

    ghost view = { λ checked. record { model = checked.model; files = checked.files } };
}

/// The model file.
pub(crate) fn text_pass<F: Files>(
    alloc: Global,
    files: &mut F,
    readings: &mut Readings,
    name: &str,
) -> Result<ModelText, Halt>
    ensures known { (F.seen files.new).known ≡ (F.seen files.old).known }
    ensures comes { Comes (text_pass name.now) (outside F.seen files.old files.new)
        readings.old readings.new result }
{
    if let Err(halt) = obtain(alloc, files, readings, AS_TEXT, name) {
        return Err(halt);
    }
    text_of(alloc, &readings.source(name))
}

// The files of the cubes' rules.
fn deploy_pass<F: Files>(
    alloc: Global,
    files: &mut F,
    readings: &mut Readings,
    name: &str,
    text: ModelText,
) -> Result<Accepted, Halt>
    ensures known { (F.seen files.new).known ≡ (F.seen files.old).known }
    ensures comes { Comes (deploy_pass name.now text) (outside F.seen files.old files.new)
        readings.old readings.new result }
{
    let names = match rule_names(alloc, text.cubes()) {
        Ok(names) => names,
        Err(_) => return Err(Halt::Memory),
    };
    if let Err(halt) = obtain_all(alloc, files, readings, AS_TEXT, &names) {
        return Err(halt);
    }
    match readings.sources(alloc, &names) {
        Ok(sources) => model_of(alloc, name, text, &sources),
        Err(_) => Err(Halt::Memory),
    }
}

// All script files.
fn scripts_pass<F: Files>(
    alloc: Global,
    files: &mut F,
    readings: &mut Readings,
    names: &[String],
) -> Result<ListOf<BoundScript>, Halt>
    ensures known { (F.seen files.new).known ≡ (F.seen files.old).known }
    ensures comes { Comes (scripts_pass (texts_of names.now))
        (outside F.seen files.old files.new) readings.old readings.new result }
{
    if let Err(halt) = obtain_all(alloc, files, readings, AS_TEXT, names) {
        return Err(halt);
    }
    match readings.sources(alloc, names) {
        Ok(sources) => scripts_of(alloc, &sources),
        Err(_) => Err(Halt::Memory),
    }
}

/// The model with all that belongs to it.
pub(crate) fn model_pass<F: Files>(
    alloc: Global,
    files: &mut F,
    readings: &mut Readings,
    name: &str,
) -> Result<Checked, Halt>
    ensures known { (F.seen files.new).known ≡ (F.seen files.old).known }
    ensures comes { Comes (model_pass name.now) (outside F.seen files.old files.new)
        readings.old readings.new result }
{
    let text = text_pass(alloc, files, readings, name)?;
    behind_text(alloc, files, readings, name, text)
}

// The passes behind that of the model file.
fn behind_text<F: Files>(
    alloc: Global,
    files: &mut F,
    readings: &mut Readings,
    name: &str,
    text: ModelText,
) -> Result<Checked, Halt>
    ensures known { (F.seen files.new).known ≡ (F.seen files.old).known }
    ensures comes { Comes (behind_text name.now text) (outside F.seen files.old files.new)
        readings.old readings.new result }
{
    let Ok(scripts) = script_files(alloc, text.scripts()) else {
        return Err(Halt::Memory);
    };
    let Ok(names) = script_names(alloc, text.scripts()) else {
        return Err(Halt::Memory);
    };
    let Ok(rules) = all_rule_names(alloc, text.cubes()) else {
        return Err(Halt::Memory);
    };
    match deploy_pass(alloc, files, readings, name, text) {
        Ok(model) => behind_rules(alloc, files, readings, &scripts, names, rules, model),
        Err(halt) => Err(halt),
    }
}

// The pass behind that of the rule files, of the scripts of these files and names. `rules` has the name of the rule
// file of each cube.
fn behind_rules<F: Files>(
    alloc: Global,
    files: &mut F,
    readings: &mut Readings,
    scripts: &[String],
    names: ListOf<Name>,
    rules: ListOf<ListOf<u8>>,
    model: Accepted,
) -> Result<Checked, Halt>
    requires each { length scripts.now ≡ length names }
    requires few { length names ≤ most_scripts }
    ensures known { (F.seen files.new).known ≡ (F.seen files.old).known }
    ensures comes { Comes (behind_rules (texts_of scripts.now) names rules model)
        (outside F.seen files.old files.new) readings.old readings.new result }
{
    let trees = match scripts_pass(alloc, files, readings, scripts) {
        Ok(trees) => trees,
        Err(halt) => return Err(halt),
    };
    match ModelFiles::new(alloc, names, trees, rules) {
        Ok(files) => Ok(Checked { model, files }),
        Err(_) => Err(Halt::Memory),
    }
}
