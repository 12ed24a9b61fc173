ghost use Rattle.std.specs.Prelude.{◌≡◌};
ghost use Rattle.cube_words.specs.Words.{Feeders};
ghost use Rattle.file_passes.specs.Halting.{Comes};
ghost use Rattle.file_passes.specs.Outside.{outside};
ghost use Rattle.run_passes.specs.Inside.Plans.{behind_feeders_text};
ghost use Rattle.run_passes.specs.RefusalOrder.{bind_pass, plan_pass};

use crate::model_passes::{AS_TEXT, text_pass};
use crate::run_job::RunJob;
use cube_outside::Files;
use file_passes::{Halt, Readings, obtain_all};
use judged_files::{bound_of, rule_names};
use model_bind::Bound;
use model_text::ModelText;
use std::alloc::Global;

// The files of the cubes' rules, with which the model is bound.
fn bind_pass<F: Files>(
    alloc: Global,
    files: &mut F,
    readings: &mut Readings,
    name: &str,
    text: ModelText,
) -> Result<Bound, Halt>
    ensures known { (F.seen files.new).known ≡ (F.seen files.old).known }
    ensures comes { Comes (bind_pass name.now text) (outside F.seen files.old files.new)
        readings.old readings.new result }
{
    let names = match rule_names(alloc, text.cubes()) {
        Ok(names) => names,
        Err(_) => return Err(Halt::Memory),
    };
    if let Err(halt) = obtain_all(alloc, files, readings, AS_TEXT, &names) {
        return Err(halt);
    }
    match readings.sources(alloc, &names) {
        Ok(sources) => bound_of(alloc, name, text, &sources),
        Err(_) => Err(Halt::Memory),
    }
}

/// The passes of a plan that prints the feeders that are found. Scripts aren't looked at.
pub(crate) fn feeders_plan_pass<F: Files>(
    alloc: Global,
    files: &mut F,
    readings: &mut Readings,
    model: &str,
) -> Result<RunJob, Halt>
    ensures { Comes (plan_pass (Feeders model.now)) (outside F.seen files.old files.new)
        readings.old readings.new result }
{
    let text = text_pass(alloc, files, readings, model)?;
    behind_text(alloc, files, readings, model, text)
}

// The pass behind that of the model file.
fn behind_text<F: Files>(
    alloc: Global,
    files: &mut F,
    readings: &mut Readings,
    name: &str,
    text: ModelText,
) -> Result<RunJob, Halt>
    ensures { Comes (behind_feeders_text name.now text) (outside F.seen files.old files.new)
        readings.old readings.new result }
{
    let bound = bind_pass(alloc, files, readings, name, text)?;
    Ok(RunJob::Feeders(bound))
}
