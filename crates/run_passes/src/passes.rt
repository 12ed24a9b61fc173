ghost use Rattle.std.specs.Prelude.{◌≡◌, IfOk};
ghost use Rattle.cube_words.specs.Words.{asked, Check, Explain, Run, texts_of};
ghost use Rattle.file_passes.specs.Halting.{Comes};
ghost use Rattle.file_passes.specs.Outside.{outside};
ghost use Rattle.judged_files.specs.Users.{AreKnown};
ghost use Rattle.run_passes.specs.Inside.Plans.{behind_model, behind_users};
ghost use Rattle.run_passes.specs.RefusalOrder.{users_pass, records_pass, ready_pass, plan_pass, run_of};

use crate::feeders_passes::feeders_plan_pass;
use crate::model_passes::{AS_TEXT, Checked, model_pass};
use crate::ready::Ready;
use crate::run_job::RunJob;
use cube_outside::{Extent, Files};
use cube_words::{Plan, WordsFault, words as plan_of};
use dim_name::Name;
use file_passes::{Halt, Readings, obtain_all};
use judged_files::{ModelFiles, commands_of, record_files, users_of};
use lists::ListOf;
use sandbox::Act;
use std::alloc::{AllocError, Global};
use user_session::PlanCommand;
use user_text::UserCommand;

// All user files.
fn users_pass<F: Files>(
    alloc: Global,
    files: &mut F,
    readings: &mut Readings,
    scripts: &[Name],
    names: &[String],
) -> Result<ListOf<ListOf<UserCommand>>, Halt>
    ensures known { (F.seen files.new).known ≡ (F.seen files.old).known }
    ensures comes { Comes (users_pass scripts.now (texts_of names.now))
        (outside F.seen files.old files.new) readings.old readings.new result }
{
    if let Err(halt) = obtain_all(alloc, files, readings, AS_TEXT, names) {
        return Err(halt);
    }
    match readings.sources(alloc, names) {
        Ok(sources) => users_of(alloc, scripts, &sources),
        Err(_) => Err(Halt::Memory),
    }
}

// The files of all records, each whole. The script of each load is there.
fn records_pass<F: Files>(
    alloc: Global,
    files: &mut F,
    readings: &mut Readings,
    model_files: &ModelFiles,
    users: ListOf<ListOf<UserCommand>>,
) -> Result<ListOf<ListOf<Act<PlanCommand>>>, Halt>
    requires { AreKnown model_files.now.script_names users }
    ensures known { (F.seen files.new).known ≡ (F.seen files.old).known }
    ensures comes { Comes (records_pass model_files.now users)
        (outside F.seen files.old files.new) readings.old readings.new result }
{
    let names = match record_files(alloc, users.as_slice()) {
        Ok(names) => names,
        Err(_) => return Err(Halt::Memory),
    };
    if let Err(halt) = obtain_all(alloc, files, readings, Extent::Whole, &names) {
        return Err(halt);
    }
    let sources = match readings.sources(alloc, &names) {
        Ok(sources) => sources,
        Err(_) => return Err(Halt::Memory),
    };
    match commands_of(alloc, model_files, &sources, users) {
        Ok(commands) => Ok(commands),
        Err(_) => Err(Halt::Memory),
    }
}

// The passes of a plan.
fn plan_pass<F: Files>(
    alloc: Global,
    files: &mut F,
    readings: &mut Readings,
    plan: &Plan<'_>,
) -> Result<RunJob, Halt>
    ensures { Comes (plan_pass (asked plan.now)) (outside F.seen files.old files.new)
        readings.old readings.new result }
{
    match plan {
        Plan::Run { model, users } => run_pass(alloc, files, readings, model, users),
        Plan::Check { model } => check_pass(alloc, files, readings, model),
        Plan::Explain { model, users } => explain_pass(alloc, files, readings, model, users),
        Plan::Feeders { model } => feeders_plan_pass(alloc, files, readings, model),
        Plan::Sample { size } => Ok(RunJob::Sample(*size)),
    }
}

// The passes of a check.
fn check_pass<F: Files>(
    alloc: Global,
    files: &mut F,
    readings: &mut Readings,
    model: &str,
) -> Result<RunJob, Halt>
    ensures { Comes (plan_pass (Check model.now)) (outside F.seen files.old files.new)
        readings.old readings.new result }
{
    let checked = model_pass(alloc, files, readings, model)?;
    Ok(RunJob::Check(checked.model))
}

// The passes of a run for its users.
fn run_pass<F: Files>(
    alloc: Global,
    files: &mut F,
    readings: &mut Readings,
    model: &str,
    users: &[String],
) -> Result<RunJob, Halt>
    ensures { Comes (plan_pass (Run model.now (texts_of users.now)))
        (outside F.seen files.old files.new) readings.old readings.new result }
{
    let ready = ready_pass(alloc, files, readings, model, users)?;
    Ok(RunJob::Serve(ready.model, ready.commands))
}

// The passes of an explanation, which are those of a run.
fn explain_pass<F: Files>(
    alloc: Global,
    files: &mut F,
    readings: &mut Readings,
    model: &str,
    users: &[String],
) -> Result<RunJob, Halt>
    ensures { Comes (plan_pass (Explain model.now (texts_of users.now)))
        (outside F.seen files.old files.new) readings.old readings.new result }
{
    let file = match name_of(alloc, model) {
        Ok(file) => file,
        Err(_) => return Err(Halt::Memory),
    };
    let ready = ready_pass(alloc, files, readings, model, users)?;
    Ok(RunJob::Explain(ready.model, file, ready.rule_files))
}

fn name_of(alloc: Global, name: &str) -> Result<ListOf<u8>, AllocError>
    ensures { IfOk result (λ copy. copy ≡ name.now) }
{
    Ok(ListOf::new(Vec::from_slice(alloc, name.as_bytes())?))
}

// The model, and the commands of its users.
fn ready_pass<F: Files>(
    alloc: Global,
    files: &mut F,
    readings: &mut Readings,
    model: &str,
    users: &[String],
) -> Result<Ready, Halt>
    ensures { Comes (ready_pass model.now (texts_of users.now))
        (outside F.seen files.old files.new) readings.old readings.new result }
{
    let checked = model_pass(alloc, files, readings, model)?;
    behind_model(alloc, files, readings, users, checked)
}

// The passes behind those of the model.
fn behind_model<F: Files>(
    alloc: Global,
    files: &mut F,
    readings: &mut Readings,
    users: &[String],
    checked: Checked,
) -> Result<Ready, Halt>
    ensures { Comes (behind_model (texts_of users.now) checked)
        (outside F.seen files.old files.new) readings.old readings.new result }
{
    let whole = &checked;
    let scripts = whole.files.script_names.as_slice();
    let texts = users_pass(alloc, files, readings, scripts, users)?;
    behind_users(alloc, files, readings, checked, texts)
}

// The pass behind that of the user files, in which each load is one of a script of the model.
fn behind_users<F: Files>(
    alloc: Global,
    files: &mut F,
    readings: &mut Readings,
    checked: Checked,
    texts: ListOf<ListOf<UserCommand>>,
) -> Result<Ready, Halt>
    requires { AreKnown checked.files.script_names texts }
    ensures { Comes (behind_users checked texts) (outside F.seen files.old files.new)
        readings.old readings.new result }
{
    let rule_files = match checked.files.rule_file_names(alloc) {
        Ok(rule_files) => rule_files,
        Err(_) => return Err(Halt::Memory),
    };
    let commands = records_pass(alloc, files, readings, &checked.files, texts)?;
    Ok(Ready {
        model: checked.model,
        commands,
        rule_files,
    })
}

/// All passes of a run.
pub fn run_passes<F: Files>(
    alloc: Global,
    words: &[String],
    files: &mut F,
    readings: &mut Readings,
) -> Result<RunJob, Halt>
    ensures { Comes (run_of (texts_of words.now)) (outside F.seen files.old files.new)
        readings.old readings.new result }
{
    match plan_of(alloc, words) {
        Ok(plan) => plan_pass(alloc, files, readings, &plan),
        Err(WordsFault::OutOfMemory) => Err(Halt::Memory),
        Err(WordsFault::Usage) => Err(Halt::NotWords),
    }
}
