ghost use Rattle.std.specs.Prelude.{◌≡◌, ◌++◌, ◌∷◌, [], IfOk, OnOk, length, codes, decimal, string_bytes};
ghost use Rattle.std.specs.List.{flat_map};
ghost use Rattle.cube_lex.specs.Quoted.{doubled};
ghost use Rattle.cube_server.specs.Output.{told_line, user_text, entry_line, history_text, quoted_name, cause_text};
ghost use Rattle.cube_server.specs.Output.{place_text, refused_text, unread_text, usage_text};

use file_passes::{Cause, FilePlace, Refusal};
use history::{Entry, Told};
use lists::ListOf;
use std::alloc::{AllocError, Global};
use user_session::{CellWrites, ReplyText};

/// The text of a user: the line `user U` and a line for each command. Each reply is let go of once it is in the text.
pub(crate) fn print_user(
    alloc: Global,
    user: usize,
    told: ListOf<Told<ReplyText>>,
) -> Result<Vec<u8>, AllocError>
    ensures { IfOk result (λ text. text.items ≡ user_text user told) }
{
    let mut text = format!(in alloc; "user {user}\n")?.into_bytes();
    let told = told.into_vec();
    let count = told.len();
    let mut number = 0;
    for one in told {
        prove!(number < count);
        number += 1;
        print_told(alloc, &mut text, number, &one)?;
    }
    Ok(text)
}

// The line `K @P REPLY`.
fn print_told(
    alloc: Global,
    text: &mut Vec<u8>,
    number: usize,
    told: &Told<ReplyText>,
) -> Result<(), AllocError>
    ensures { OnOk result (text.new.items ≡ text.old.items ++ told_line number told.now) }
{
    let place = told.place;
    text.extend_from_slice(format!(in alloc; "{number} @{place} ")?.as_bytes())?;
    text.extend_from_slice(told.reply.as_slice())?;
    text.push(b'\n')?;
    Ok(())
}

/// The history: the line `history` and a line for each entry.
pub(crate) fn print_history(alloc: Global, log: &[Entry<CellWrites>]) -> Result<Vec<u8>, AllocError>
    ensures { IfOk result (λ text. text.items ≡ history_text log.now) }
{
    let mut text = Vec::from_slice(alloc, b"history\n")?;
    for (place, entry) in log.iter().enumerate() {
        print_entry(alloc, &mut text, place, entry)?;
    }
    Ok(text)
}

// The line `I user U command K cells N`.
fn print_entry(
    alloc: Global,
    text: &mut Vec<u8>,
    place: usize,
    entry: &Entry<CellWrites>,
) -> Result<(), AllocError>
    ensures { OnOk result (text.new.items ≡ text.old.items ++ entry_line place entry.now) }
{
    let user = entry.user;
    let command = entry.command;
    let cells = cells_of(entry);
    let line = format!(in alloc; "{place} user {user} command {command} cells {cells}\n")?;
    text.extend_from_slice(line.as_bytes())
}

// How many cells a commit has written.
fn cells_of(entry: &Entry<CellWrites>) -> usize
    ensures { result ≡ length entry.now.writes }
{
    entry.writes.as_slice().len()
}

/// The line `refused FILE: PLACE: CAUSE`.
pub(crate) fn print_refusal(alloc: Global, refusal: &Refusal) -> Result<Vec<u8>, AllocError>
    ensures { IfOk result (λ text. text.items ≡ refused_text refusal.now) }
{
    let mut text = Vec::from_slice(alloc, b"refused ")?;
    text.extend_from_slice(refusal.file.as_slice())?;
    text.extend_from_slice(b": ")?;
    text.extend_from_slice(place_name(alloc, refusal.at)?.as_bytes())?;
    text.extend_from_slice(b": ")?;
    push_cause(alloc, &mut text, &refusal.cause)?;
    text.push(b'\n')?;
    Ok(text)
}

fn place_name(alloc: Global, at: FilePlace) -> Result<String, AllocError>
    ensures { IfOk result (λ text. string_bytes text ≡ place_text at) }
{
    match at {
        FilePlace::Text(place) => {
            let line = place.line;
            format!(in alloc; "line {line}")
        }
        FilePlace::Statement(statement) => format!(in alloc; "statement {statement}"),
        FilePlace::Feeder(feeder) => format!(in alloc; "feeder {feeder}"),
    }
}

// The name of a cause, and its number where it has one; a circle by the names of its elements.
fn push_cause(alloc: Global, text: &mut Vec<u8>, cause: &Cause) -> Result<(), AllocError>
    ensures { OnOk result (text.new.items ≡ text.old.items ++ cause_text cause.now) }
{
    match cause {
        Cause::Cycle(names) => push_circle(text, names.as_slice()),
        Cause::TooManyPairs(count) => push_number(alloc, text, "TooManyPairs ", *count),
        Cause::TooHigh(height) => push_number(alloc, text, "TooHigh ", *height),
        Cause::NotEarlier(place) => push_place(alloc, text, "NotEarlier reference ", *place),
        Cause::Unlagged(place) => push_place(alloc, text, "Unlagged reference ", *place),
        Cause::DenseTooLarge(count) => push_number(alloc, text, "DenseTooLarge ", *count),
        Cause::NotFed(place) => push_place(alloc, text, "NotFed operand ", *place),
        Cause::FedLimit(count) => push_number(alloc, text, "FedLimit ", *count),
        Cause::Syntax => text.extend_from_slice(b"Syntax"),
        Cause::WrongVersion => text.extend_from_slice(b"WrongVersion"),
        Cause::Duplicate => text.extend_from_slice(b"Duplicate"),
        Cause::UnknownName => text.extend_from_slice(b"UnknownName"),
        Cause::TooMany => text.extend_from_slice(b"TooMany"),
        Cause::UnknownComponent => text.extend_from_slice(b"UnknownComponent"),
        Cause::Loop => text.extend_from_slice(b"Loop"),
        Cause::WeightRange => text.extend_from_slice(b"WeightRange"),
        Cause::BadAttribute => text.extend_from_slice(b"BadAttribute"),
        Cause::CoefficientTooLarge => text.extend_from_slice(b"CoefficientTooLarge"),
        Cause::DimensionCount => text.extend_from_slice(b"DimensionCount"),
        Cause::CubeTooLarge => text.extend_from_slice(b"CubeTooLarge"),
        Cause::ModelTooLarge => text.extend_from_slice(b"ModelTooLarge"),
        Cause::WeightProduct => text.extend_from_slice(b"WeightProduct"),
        Cause::TooDeep => text.extend_from_slice(b"TooDeep"),
        Cause::UnknownFunction => text.extend_from_slice(b"UnknownFunction"),
        Cause::Ambiguous => text.extend_from_slice(b"Ambiguous"),
        Cause::WrongCount => text.extend_from_slice(b"WrongCount"),
        Cause::DynamicReference => text.extend_from_slice(b"DynamicReference"),
        Cause::Unsupported => text.extend_from_slice(b"Unsupported"),
        Cause::BadOrder => text.extend_from_slice(b"BadOrder"),
        Cause::UnknownScript => text.extend_from_slice(b"UnknownScript"),
    }
}

// A name and a place.
fn push_place(alloc: Global, text: &mut Vec<u8>, name: &str, place: u32) -> Result<(), AllocError>
    ensures { OnOk result (text.new.items ≡ text.old.items ++ (name.now ++ decimal place)) }
{
    push_number(alloc, text, name, place as u64)
}

// A name and a number.
fn push_number(alloc: Global, text: &mut Vec<u8>, name: &str, number: u64) -> Result<(), AllocError>
    ensures { OnOk result (text.new.items ≡ text.old.items ++ (name.now ++ decimal number)) }
{
    text.extend_from_slice(name.as_bytes())?;
    text.extend_from_slice(number.to_string(alloc)?.as_bytes())
}

// `Cycle`, and each of the names in quotes.
fn push_circle(text: &mut Vec<u8>, names: &[ListOf<u8>]) -> Result<(), AllocError>
    ensures { OnOk result (text.new.items ≡ text.old.items ++ (codes "Cycle" ++ flat_map quoted_name names.now)) }
{
    text.extend_from_slice(b"Cycle")?;
    for name in names {
        push_name(text, name.as_slice())?;
    }
    Ok(())
}

// A space, and a name in quotes, each quote in it doubled.
fn push_name(text: &mut Vec<u8>, name: &[u8]) -> Result<(), AllocError>
    ensures { OnOk result (text.new.items ≡ text.old.items ++ quoted_name name.now) }
{
    text.extend_from_slice(b" '")?;
    for byte in name {
        push_inside(text, *byte)?;
    }
    text.push(b'\'')?;
    Ok(())
}

// A byte of a name in quotes.
fn push_inside(text: &mut Vec<u8>, byte: u8) -> Result<(), AllocError>
    ensures { OnOk result (text.new.items ≡ text.old.items ++ doubled (byte ∷ [])) }
{
    if byte == b'\'' {
        text.push(byte)?;
    }
    text.push(byte)?;
    Ok(())
}

/// The line `cannot read FILE`.
pub(crate) fn print_unread(alloc: Global, file: &[u8]) -> Result<Vec<u8>, AllocError>
    ensures { IfOk result (λ text. text.items ≡ unread_text file.now) }
{
    let mut text = Vec::from_slice(alloc, b"cannot read ")?;
    text.extend_from_slice(file)?;
    text.push(b'\n')?;
    Ok(text)
}

/// How the program is called.
pub(crate) fn print_usage(alloc: Global) -> Result<Vec<u8>, AllocError>
    ensures { IfOk result (λ text. text.items ≡ usage_text) }
{
    let mut text = Vec::from_slice(alloc, b"usage: cube_program MODEL USER...\n")?;
    text.extend_from_slice(b"       cube_program --check MODEL\n")?;
    text.extend_from_slice(b"       cube_program --sample N\n")?;
    text.extend_from_slice(b"       cube_program --feeders MODEL\n")?;
    text.extend_from_slice(b"       cube_program --explain MODEL USER...\n")?;
    Ok(text)
}
