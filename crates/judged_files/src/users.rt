ghost use Rattle.std.specs.Prelude.{◌≡◌, ◌+◌, ◌≤◌, find, IfOk};
ghost use Rattle.std.specs.Option.{option_copied};
ghost use Rattle.dim_name.specs.Name.{has_name};
ghost use Rattle.file_passes.specs.Halting.{Judges};
ghost use Rattle.judged_files.specs.Inside.Judging.{IsHaltFor, texts_judgement};
ghost use Rattle.judged_files.specs.Refusals.{user_refusal};
ghost use Rattle.judged_files.specs.Users.{is_unknown, is_unknown_load, unknown_script, users_judgement};
ghost use Rattle.user_text.specs.Counting.{most_commands};

use crate::refusing::{halt_at, refused_at};
use dim_name::Name;
use file_passes::{Cause, Halt, Refusal, Source};
use lists::ListOf;
use std::alloc::{AllocError, Global};
use user_text::{MAX_COMMANDS, UserBody, UserCommand, UserFault, parse};

/// The commands of each user that the bytes of all user files mean, where each load is one of a script of these
/// names.
pub fn users_of(
    alloc: Global,
    scripts: &[Name],
    sources: &[Source<'_>],
) -> Result<ListOf<ListOf<UserCommand>>, Halt>
    ensures { Judges (users_judgement scripts.now sources.now) result }
{
    let users = match parse_all(alloc, sources) {
        Ok(users) => users,
        Err(halt) => return Err(halt),
    };
    if let Some(refusal) = unknown_script(alloc, scripts, sources, users.as_slice())? {
        return Err(Halt::Refused(refusal));
    }
    Ok(users)
}

// The texts of all users, each behind the commands of those before.
fn parse_all(alloc: Global, sources: &[Source<'_>]) -> Result<ListOf<ListOf<UserCommand>>, Halt>
    ensures { Judges (texts_judgement sources.now) result }
{
    let mut all = Vec::new(alloc);
    let mut before = 0;
    for source in sources {
        let commands = match parse(alloc, source.bytes(), before) {
            Ok(commands) => commands,
            Err(fault) => return Err(user_halt(alloc, source.name(), &fault)),
        };
        let after = counted(before, commands.len())?;
        let one = ListOf::new(commands);
        all.push(one)?;
        before = after;
    }
    let texts = ListOf::new(all);
    Ok(texts)
}

fn user_halt(alloc: Global, file: &str, fault: &UserFault) -> Halt
    ensures { IsHaltFor (user_refusal file.now fault.now) result }
{
    match fault {
        UserFault::Syntax(place) => halt_at(alloc, file, *place, Some(Cause::Syntax)),
        UserFault::TooMany(place) => halt_at(alloc, file, *place, Some(Cause::TooMany)),
        UserFault::Memory => Halt::Memory,
    }
}

// How many commands there are with so many more. A text has never too many, since those before were counted when it was
// read.
fn counted(before: u32, more: usize) -> Result<u32, AllocError>
    requires { before ≤ most_commands }
    ensures sum { IfOk result (λ count. count ≡ before + more) }
    ensures few { IfOk result (λ count. count ≤ most_commands) }
{
    match u32::try_from(more) {
        Ok(more) if more <= MAX_COMMANDS - before => Ok(before + more),
        _ => Err(AllocError),
    }
}

// The first load, in the order of the words, of a script that isn't in the model.
fn unknown_script(
    alloc: Global,
    scripts: &[Name],
    sources: &[Source<'_>],
    users: &[ListOf<UserCommand>],
) -> Result<Option<Refusal>, AllocError>
    ensures { IfOk result (λ found. found ≡ unknown_script scripts.now sources.now users.now) }
{
    for (index, source) in sources.iter().enumerate() {
        let Some(commands) = users.get(index) else {
            return Ok(None);
        };
        if let Some(command) = first_unknown(scripts, commands.as_slice()) {
            let refusal = refused_at(alloc, source.name(), command.at, Cause::UnknownScript)?;
            return Ok(Some(refusal));
        }
    }
    Ok(None)
}

fn first_unknown<'a>(scripts: &[Name], commands: &'a [UserCommand]) -> Option<&'a UserCommand>
    ensures { option_copied result ≡ find (is_unknown scripts.now) commands.now }
{
    commands
        .iter()
        .find(|command| is_unknown(scripts, &command.body))
}

fn is_unknown(scripts: &[Name], command: &UserBody) -> bool
    ensures { result ≡ is_unknown_load scripts.now command.now }
{
    match command {
        UserBody::Load(load) => !has_name(scripts, &load.script),
        UserBody::Put(..) | UserBody::Get(_) | UserBody::View(_) | UserBody::Spread(..) => false,
        UserBody::Trace(_) => false,
        UserBody::Sandbox | UserBody::Publish | UserBody::Discard => false,
    }
}

fn has_name(names: &[Name], name: &Name) -> bool
    ensures { result ≡ has_name names.now name.now }
{
    names.iter().any(|known| name == known)
}
