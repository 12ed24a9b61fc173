ghost use Rattle.std.specs.Prelude.{◌≡◌, IfOk};
ghost use Rattle.cube_words.specs.Words.{texts_of};
ghost use Rattle.file_passes.specs.Halting.{Judges};
ghost use Rattle.model_text.specs.Contents.{script_names};
ghost use Rattle.judged_files.specs.Inside.Judging.{IsHaltFor};
ghost use Rattle.judged_files.specs.Refusals.{script_refusal};
ghost use Rattle.judged_files.specs.Scripts.{script_files, scripts_judgement};

use crate::refusing::halt_at;
use dim_name::Name;
use file_passes::{Cause, Halt, Source, file_name};
use lists::ListOf;
use model_text::ScriptText;
use script_bind::bind;
use script_bound::BoundScript;
use script_reader::{ScriptFault, parse};
use std::alloc::{AllocError, Global};

/// The names of the scripts, in the order of the model.
pub fn script_names(alloc: Global, scripts: &[ScriptText]) -> Result<ListOf<Name>, AllocError>
    ensures { IfOk result (λ names. names ≡ script_names scripts.now) }
{
    let mut names = Vec::with_capacity(alloc, scripts.len())?;
    for script in scripts {
        names.push(same_name(alloc, &script.name)?)?;
    }
    Ok(ListOf::new(names))
}

fn same_name(alloc: Global, name: &Name) -> Result<Name, AllocError>
    ensures { IfOk result (λ same. same ≡ name.now) }
{
    match Name::new(alloc, name.shown()) {
        Ok(same) => Ok(same),
        Err(_) => Err(AllocError),
    }
}

/// The names of the script files, in the order of the model.
pub fn script_files(alloc: Global, scripts: &[ScriptText]) -> Result<Vec<String>, AllocError>
    ensures { IfOk result (λ names. texts_of names.items ≡ script_files scripts.now) }
{
    let mut names = Vec::new(alloc);
    for script in scripts {
        names.push(file_name(alloc, script.file.as_slice())?)?;
    }
    Ok(names)
}

/// The scripts that the bytes of all script files mean, each bound once for all loads of it.
pub fn scripts_of(alloc: Global, sources: &[Source<'_>]) -> Result<ListOf<BoundScript>, Halt>
    ensures { Judges (scripts_judgement sources.now) result }
{
    let mut all = Vec::new(alloc);
    for source in sources {
        let script = match parse(alloc, source.bytes()) {
            Ok(script) => script,
            Err(fault) => return Err(script_halt(alloc, source.name(), &fault)),
        };
        let bound = bind(alloc, &script)?;
        all.push(bound)?;
    }
    let scripts = ListOf::new(all);
    Ok(scripts)
}

fn script_halt(alloc: Global, file: &str, fault: &ScriptFault) -> Halt
    ensures { IsHaltFor (script_refusal file.now fault.now) result }
{
    match fault {
        ScriptFault::Syntax(place) => halt_at(alloc, file, *place, Some(Cause::Syntax)),
        ScriptFault::UnknownFunction(place) => {
            halt_at(alloc, file, *place, Some(Cause::UnknownFunction))
        }
        ScriptFault::TooDeep(place) => halt_at(alloc, file, *place, Some(Cause::TooDeep)),
        ScriptFault::Memory => Halt::Memory,
    }
}
