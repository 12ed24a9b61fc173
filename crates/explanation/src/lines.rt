ghost use Rattle.std.specs.Prelude.{◌≡◌, ◌++◌, IfOk, OnOk};
ghost use Rattle.explanation.specs.Explanation.{IsShown, IsSpot, IsExplanation, at_line, text_line, limit_line};
ghost use Rattle.explanation.specs.Explanation.{numbered_place, part_line, place_text, spot_of, tokens_at, word_of};

use crate::limits::{limit_of, word_at};
use crate::operands::operand_tokens;
use crate::places::{column_at, line_at, shown, shown_line};
use crate::statements::{reference_tokens, tokens_from};
use crate::written::{begin_of, written};
use cube_lex::{TokensLeft, text_tokens};
use file_passes::{Cause, FilePlace, Readings, Refusal};
use lists::ListOf;
use std::alloc::{AllocError, Global};

// Where in a text a refusal stands, and what is said of that part of a statement.
#[derive(Drop)]
struct Spot {
    at: usize,
    part: ListOf<u8>,
}

// Of the tokens of a statement or feeder, those from where this cause stands on.
fn tokens_at<'a>(cause: &Cause, tokens: TokensLeft<'a>) -> TokensLeft<'a>
    ensures { result ≡ tokens_at cause.now tokens.entry }
{
    match cause {
        Cause::Unlagged(reference) => reference_tokens(*reference, tokens),
        Cause::NotEarlier(reference) => reference_tokens(*reference, tokens),
        Cause::NotFed(operand) => operand_tokens(*operand, tokens),
        _ => tokens,
    }
}

// What is said of the part of a statement where this cause stands, if anything is.
fn word_of(cause: &Cause) -> &'static [u8]
    ensures { result.now ≡ word_of cause.now }
{
    match cause {
        Cause::Unlagged(_) => b"  reads ",
        Cause::NotEarlier(_) => b"  reads ",
        Cause::NotFed(_) => b"  operand ",
        _ => b"",
    }
}

// The word, and the part as the file has it.
fn part_line(alloc: Global, word: &[u8], part: &[u8]) -> Result<Vec<u8>, AllocError>
    ensures { IfOk result (λ line. line.items ≡ part_line word.now part.now) }
{
    let mut line = Vec::new(alloc);
    if word.is_empty() {
        return Ok(line);
    }
    line.extend_from_slice(word)?;
    line.extend_from_slice(shown(part))?;
    line.push(b'\n')?;
    Ok(line)
}

// The spot of a cause at the first of these tokens.
fn spot_of(
    alloc: Global,
    text: &[u8],
    cause: &Cause,
    tokens: TokensLeft<'_>,
) -> Result<Spot, AllocError>
    ensures { IfOk result (λ spot. spot ≡ spot_of text.now cause.now tokens.entry) }
{
    let at = begin_of(&tokens);
    let part = part_line(alloc, word_of(cause), written(text, tokens))?;
    Ok(Spot {
        at,
        part: ListOf::new(part),
    })
}

// The spot of a statement or feeder.
fn spot_in(alloc: Global, text: &[u8], refusal: &Refusal) -> Result<Spot, AllocError>
    ensures { IfOk result (IsSpot text.now refusal.now) }
{
    let tokens = tokens_from(refusal.at, text_tokens(text).left);
    spot_of(
        alloc,
        text,
        &refusal.cause,
        tokens_at(&refusal.cause, tokens),
    )
}

// Where in a text a refusal is shown.
fn shown_at(alloc: Global, text: &[u8], refusal: &Refusal) -> Result<Spot, AllocError>
    ensures { IfOk result (IsShown text.now refusal.now refusal.now.at) }
{
    match refusal.at {
        FilePlace::Text(place) => Ok(Spot {
            at: place.offset,
            part: ListOf::new(Vec::new(alloc)),
        }),
        FilePlace::Statement(_) => spot_in(alloc, text, refusal),
        FilePlace::Feeder(_) => spot_in(alloc, text, refusal),
    }
}

/// Adds `FILE:LINE:COLUMN`, by the numbers of the line and the column. It fails only when out of memory.
pub(crate) fn push_numbers(
    alloc: Global,
    out: &mut Vec<u8>,
    file: &[u8],
    line: usize,
    column: usize,
) -> Result<(), AllocError>
    ensures { OnOk result (out.new.items ≡ out.old.items ++ numbered_place file.now line column) }
{
    out.extend_from_slice(file)?;
    out.extend_from_slice(format!(in alloc; ":{line}:{column}")?.as_bytes())
}

/// Adds `FILE:LINE:COLUMN`, the place of the byte at an offset of a file's text. It fails only when out of memory.
pub(crate) fn push_place(
    alloc: Global,
    out: &mut Vec<u8>,
    file: &[u8],
    text: &[u8],
    at: usize,
) -> Result<(), AllocError>
    ensures { OnOk result (out.new.items ≡ out.old.items ++ place_text file.now text.now at) }
{
    push_numbers(alloc, out, file, line_at(text, at), column_at(text, at))
}

// Adds the line `  at FILE:LINE:COLUMN`.
fn push_at(
    alloc: Global,
    out: &mut Vec<u8>,
    file: &[u8],
    text: &[u8],
    at: usize,
) -> Result<(), AllocError>
    ensures { OnOk result (out.new.items ≡ out.old.items ++ at_line file.now text.now at) }
{
    out.extend_from_slice(b"  at ")?;
    push_place(alloc, out, file, text, at)?;
    out.push(b'\n')?;
    Ok(())
}

// Adds the line of the text.
fn push_text(out: &mut Vec<u8>, text: &[u8], at: usize) -> Result<(), AllocError>
    ensures { OnOk result (out.new.items ≡ out.old.items ++ text_line text.now at) }
{
    out.extend_from_slice(b"  | ")?;
    out.extend_from_slice(shown_line(text, at))?;
    out.push(b'\n')?;
    Ok(())
}

// Adds the line of the limit that is passed, if one is.
fn push_limit(out: &mut Vec<u8>, limit: &[u8]) -> Result<(), AllocError>
    ensures { OnOk result (out.new.items ≡ out.old.items ++ limit_line limit.now) }
{
    if limit.is_empty() {
        return Ok(());
    }
    out.extend_from_slice(b"  limit ")?;
    out.extend_from_slice(limit)?;
    out.push(b'\n')?;
    Ok(())
}

/// The lines that explain a refusal: the line and the column at which it stands in its file, both from 1, the line of
/// the file, a reference or an operand as the file has it, and the limit that is passed, if one is. It fails only when
/// out of memory.
pub fn explanation(
    alloc: Global,
    readings: &Readings,
    refusal: &Refusal,
) -> Result<Vec<u8>, AllocError>
    ensures { IfOk result (λ lines. IsExplanation readings.now refusal.now lines.items) }
{
    let mut lines = Vec::new(alloc);
    let Some(text) = readings.bytes_of(refusal.file.as_slice())? else {
        return Ok(lines);
    };
    let spot = shown_at(alloc, text, refusal)?;
    push_at(alloc, &mut lines, refusal.file.as_slice(), text, spot.at)?;
    push_text(&mut lines, text, spot.at)?;
    lines.extend_from_slice(spot.part.as_slice())?;
    push_limit(&mut lines, limit_of(&refusal.cause, word_at(text, spot.at)))?;
    Ok(lines)
}
