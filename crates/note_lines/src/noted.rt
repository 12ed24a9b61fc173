ghost use Rattle.std.specs.Prelude.{◌≡◌, ◌≤◌, ◌++◌, [], All, IfOk, OnOk, decimal, length, slice_index_or, take};
ghost use Rattle.file_passes.specs.Pass.{bytes_of};
ghost use Rattle.note_lines.specs.Inside.Lines.{AreFileLines, AreTextLines};
ghost use Rattle.note_lines.specs.Inside.RuleTexts.{IsKnown};
ghost use Rattle.note_lines.specs.Notes as notes;

use crate::bare::bare_lines;
use crate::rule_text::{RuleText, note_tokens, rule_text};
use explanation::{begin_of, push_place_on};
use file_passes::Readings;
use lists::ListOf;
use rule_model::Model;
use rule_notes::{Note, rule_notes};
use std::alloc::{AllocError, Global};

fn cube_of(note: Note) -> u32
    ensures { result ≡ notes.cube_of note }
{
    match note {
        Note::NotReached { cube, .. } => cube,
        Note::NamesNothing { cube, .. } => cube,
    }
}

// The mark of a part for leaf cells or for consolidated ones.
fn mark(leaf: bool) -> &'static [u8]
    ensures { result.now ≡ notes.mark leaf }
{
    if leaf { b"N" } else { b"C" }
}

// Adds a text and a number behind it.
fn push_numbered(
    alloc: Global,
    out: &mut Vec<u8>,
    text: &[u8],
    number: u32,
) -> Result<(), AllocError>
    ensures { OnOk result (out.new.items ≡ out.old.items ++ (text.now ++ decimal number)) }
{
    out.extend_from_slice(text)?;
    out.extend_from_slice(number.to_string(alloc)?.as_bytes())
}

// Adds that a part isn't reached.
fn push_reached(alloc: Global, out: &mut Vec<u8>, leaf: bool, by: u32) -> Result<(), AllocError>
    ensures { OnOk result (out.new.items ≡ out.old.items ++ notes.reached_text leaf by) }
{
    out.extend_from_slice(b" NotReached ")?;
    out.extend_from_slice(mark(leaf))?;
    push_numbered(alloc, out, b" by statement ", by)?;
    Ok(())
}

// Adds what a note says.
fn push_note_text(alloc: Global, out: &mut Vec<u8>, note: Note) -> Result<(), AllocError>
    ensures { OnOk result (out.new.items ≡ out.old.items ++ notes.note_text note) }
{
    match note {
        Note::NotReached { leaf, by, .. } => push_reached(alloc, out, leaf, by),
        Note::NamesNothing { reference, .. } => {
            push_numbered(alloc, out, b" NamesNothing reference ", reference)
        }
    }
}

// Adds the line of a note in a rule text of this file.
fn push_note(
    alloc: Global,
    lines: &mut Vec<u8>,
    file: &[u8],
    rules: &mut RuleText<'_>,
    note: Note,
) -> Result<(), AllocError>
    requires { IsKnown rules.old }
    ensures line { OnOk result (lines.new.items ≡ lines.old.items
        ++ notes.note_line file.now rules.old.text.now note (notes.noted_tokens note rules.old.tokens)) }
    ensures known { OnOk result (IsKnown rules.new) }
    ensures same { (rules.new.tokens ≡ rules.old.tokens) × (rules.new.text.now ≡ rules.old.text.now) }
{
    let at = begin_of(&note_tokens(rules, note));
    lines.extend_from_slice(b"note ")?;
    push_place_on(alloc, lines, file, rules.text, &mut rules.cursor, at)?;
    push_note_text(alloc, lines, note)?;
    lines.push(b'\n')?;
    Ok(())
}

// The lines of these notes in the rule text of this file.
fn text_lines(
    alloc: Global,
    file: &[u8],
    text: &[u8],
    found: &[Note],
) -> Result<Vec<u8>, AllocError>
    ensures { IfOk result (λ lines. AreTextLines file.now text.now found.now lines.items) }
{
    let mut lines = Vec::new(alloc);
    let mut rules = rule_text(alloc, text)?;
    for note in found {
        push_note(alloc, &mut lines, file, &mut rules, *note)?;
    }
    Ok(lines)
}

// The name of a cube's rule file, or none.
fn file_of(files: &[ListOf<u8>], cube: u32) -> &[u8]
    ensures { result.now ≡ slice_index_or files.now cube [] }
{
    match files.get(cube as usize) {
        Some(file) => file.as_slice(),
        None => &[],
    }
}

// The lines of these notes of one cube, whose rule file this is.
fn cube_lines(
    alloc: Global,
    readings: &Readings,
    file: &[u8],
    found: &[Note],
) -> Result<Vec<u8>, AllocError>
    ensures { IfOk result (λ lines. AreFileLines file.now (bytes_of readings.now file.now) found.now lines.items) }
{
    match readings.bytes_of(file)? {
        Some(text) => text_lines(alloc, file, text, found),
        None => Ok(Vec::new(alloc)),
    }
}

// How many notes from the first on are of this cube.
fn cube_count(found: &[Note], cube: u32) -> usize
    ensures few { result ≤ length found.now }
    ensures same { All (λ note. notes.cube_of note ≡ cube) (take result found.now) }
{
    let mut count = 0;
    'note: while count < found.len() && cube_of(found[count]) == cube {
        count += 1;
    }
    count
}

// The lines of the notes on statements. Those of a cube follow one another.
fn rule_lines(
    alloc: Global,
    readings: &Readings,
    files: &[ListOf<u8>],
    found: &[Note],
) -> Result<Vec<u8>, AllocError>
    ensures { IfOk result (λ lines. notes.AreLinesOf readings.now files.now found.now lines.items) }
{
    let mut lines = Vec::new(alloc);
    let mut left = found;
    'cube: while let Some((first, behind)) = left.split_first() {
        let cube = cube_of(*first);
        let (own, others) = left.split_at(1 + cube_count(behind, cube));
        lines.extend_from_slice(&cube_lines(alloc, readings, file_of(files, cube), own)?)?;
        left = others;
    }
    Ok(lines)
}

/// The lines of what is accepted in a model and hardly ever meant: of the text of the model in this file, and of the
/// rule files of these names, one of each cube. Each has its place, and what it is. It fails only when out of memory.
pub fn note_lines(
    alloc: Global,
    readings: &Readings,
    file: &[u8],
    files: &[ListOf<u8>],
    model: &Model,
) -> Result<Vec<u8>, AllocError>
    ensures { IfOk result (λ lines.
        notes.AreNotes readings.now file.now files.now model.now lines.items) }
{
    let mut lines = bare_lines(alloc, readings, file)?;
    let found = rule_notes(alloc, model)?;
    let rules = rule_lines(alloc, readings, files, &found)?;
    lines.extend_from_slice(&rules)?;
    Ok(lines)
}
