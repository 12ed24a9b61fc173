ghost use Rattle.std.specs.Prelude.{◌≡◌, ◌++◌, ℕ, All, IfOk, IfSome, IsSome, Some, drop};
ghost use Rattle.std.specs.List.{AllZip};
ghost use Rattle.cube_words.specs.Words.{texts_of};
ghost use Rattle.file_passes.specs.Pass.{source_of};
ghost use Rattle.judged_files.specs.Loads.{user_files, record_files, records_of, IsLoadCommand, IsTraceCommand};
ghost use Rattle.user_text.specs.Jobs.{shared_records};
ghost use Rattle.judged_files.specs.Loads.{AreCommands, IsCommand, IsReady, IsReadyLoad, AreReady};

use crate::file_records::{FileRecords, SharedRecords};
use crate::model_files::ModelFiles;
use file_passes::{Source, file_name};
use lists::ListOf;
use sandbox::Act;
use std::alloc::{AllocError, Global};
use std::sync::Arc;
use user_session::PlanCommand;
use user_text::{CellText, LoadJob, LoadText, UserBody, UserCommand};

/// The names of the files of all records, in the order of users and commands.
pub fn record_files(alloc: Global, users: &[ListOf<UserCommand>]) -> Result<Vec<String>, AllocError>
    ensures { IfOk result (λ names. texts_of names.items ≡ record_files users.now) }
{
    let mut names = Vec::new(alloc);
    for commands in users {
        add_files(alloc, &mut names, commands.as_slice())?;
    }
    Ok(names)
}

// The names so far, and then those of this user.
fn add_files(
    alloc: Global,
    names: &mut Vec<String>,
    commands: &[UserCommand],
) -> Result<(), AllocError>
    ensures { IfOk result (λ _. texts_of names.new.items
        ≡ texts_of names.old.items ++ user_files commands.now) }
{
    for command in commands {
        if let UserBody::Load(
            LoadText {
                file: Some(file),
                ..
            },
        ) = &command.body
        {
            names.push(file_name(alloc, file.as_slice())?)?;
        }
    }
    Ok(())
}

/// The commands of all users as they are run: what opens or ends a sandbox, and the commands of the model. The scripts
/// and the files of their loads are there. Each file of records is read as records once, for all loads of it that have
/// the same byte between columns.
pub fn commands_of(
    alloc: Global,
    files: &ModelFiles,
    sources: &[Source<'_>],
    users: ListOf<ListOf<UserCommand>>,
) -> Result<ListOf<ListOf<Act<PlanCommand>>>, AllocError>
    requires { All (AreReady files.now sources.now) users }
    ensures { IfOk result (λ commands. AllZip (AreCommands files.now sources.now) users commands) }
{
    let Ok(mut sources) = FileRecords::new(alloc, sources) else {
        return Err(AllocError);
    };
    all_commands(alloc, files, &mut sources, users)
}

// The commands of all users.
fn all_commands(
    alloc: Global,
    files: &ModelFiles,
    sources: &mut FileRecords<'_, '_>,
    users: ListOf<ListOf<UserCommand>>,
) -> Result<ListOf<ListOf<Act<PlanCommand>>>, AllocError>
    requires { All (AreReady files.now sources.old) users }
    ensures kept { sources.new ≡ sources.old }
    ensures commands { IfOk result (λ commands. AllZip (AreCommands files.now sources.old) users commands) }
{
    let mut all = Vec::new(alloc);
    for texts in users.into_vec() {
        let commands = user_commands(alloc, files, sources, texts)?;
        all.push(commands)?;
    }
    Ok(ListOf::new(all))
}

// The commands of one user.
fn user_commands(
    alloc: Global,
    files: &ModelFiles,
    sources: &mut FileRecords<'_, '_>,
    texts: ListOf<UserCommand>,
) -> Result<ListOf<Act<PlanCommand>>, AllocError>
    requires { AreReady files.now sources.old texts }
    ensures kept { sources.new ≡ sources.old }
    ensures commands { IfOk result (λ commands. AreCommands files.now sources.old texts commands) }
{
    let mut commands = Vec::new(alloc);
    for text in texts.into_vec() {
        let command = command_of(alloc, files, sources, text.body)?;
        commands.push(command)?;
    }
    Ok(ListOf::new(commands))
}

fn command_of(
    alloc: Global,
    files: &ModelFiles,
    sources: &mut FileRecords<'_, '_>,
    body: UserBody,
) -> Result<Act<PlanCommand>, AllocError>
    requires { IsReady files.now sources.old body }
    ensures kept { sources.new ≡ sources.old }
    ensures command { IfOk result (λ command. IsCommand files.now sources.old body command) }
{
    match body {
        UserBody::Put(cell, number) => Ok(Act::Do(PlanCommand::Put(cell, number))),
        UserBody::Get(cell) => Ok(Act::Do(PlanCommand::Get(cell))),
        UserBody::Load(load) => load_command(alloc, files, sources, load),
        UserBody::View(view) => Ok(Act::Do(PlanCommand::View(view))),
        UserBody::Spread(cell, amount, how) => Ok(Act::Do(PlanCommand::Spread(cell, amount, how))),
        UserBody::Trace(cell) => trace_command(files, cell),
        UserBody::Sandbox => Ok(Act::Open),
        UserBody::Publish => Ok(Act::Publish),
        UserBody::Discard => Ok(Act::Discard),
    }
}

// A load by the place of its script in the model, with its records.
fn load_command(
    alloc: Global,
    files: &ModelFiles,
    sources: &mut FileRecords<'_, '_>,
    load: LoadText,
) -> Result<Act<PlanCommand>, AllocError>
    requires { IsReadyLoad files.now sources.old load }
    ensures kept { sources.new ≡ sources.old }
    ensures command { IfOk result (λ command. IsLoadCommand files.now sources.old load command) }
{
    let (script, bound) = files.named(&load.script);
    let job = LoadJob {
        script,
        records: records_of(alloc, sources, &load.file, load.separator)?,
        skip: load.skip,
        decimal: load.decimal,
        rejects: load.rejects,
        params: load.params,
    };
    Ok(Act::Do(PlanCommand::Load(job, Arc::try_clone(bound)?)))
}

// A trace, with the names of the rule files.
fn trace_command(files: &ModelFiles, cell: CellText) -> Result<Act<PlanCommand>, AllocError>
    ensures { IfOk result (λ command. IsTraceCommand files.now cell command) }
{
    let names = files.rule_files()?;
    Ok(Act::Do(PlanCommand::Trace(cell, names)))
}

// The records of a load's file, which is among those that were read.
fn records_of(
    alloc: Global,
    sources: &mut FileRecords<'_, '_>,
    file: &Option<ListOf<u8>>,
    separator: u8,
) -> Result<Option<SharedRecords>, AllocError>
    requires { IfSome file.now (λ name. IsSome (source_of sources.old name)) }
    ensures kept { sources.new ≡ sources.old }
    ensures records { IfOk result (λ records. (skip : ℕ)
        → records_of sources.old file.now separator skip ≡ Some (drop skip (shared_records records))) }
{
    match file {
        Some(name) => {
            let records = sources.records(alloc, name.as_slice(), separator)?;
            Ok(Some(records))
        }
        None => Ok(None),
    }
}
