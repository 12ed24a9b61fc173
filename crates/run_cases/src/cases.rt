use crate::faults::RunCase;
use crate::runs::{Run, run_of};
use crate::stores;
use case_lines::Texts;
use std::alloc::{AllocError, Global};

/// What a case asks for.
#[derive(Drop)]
pub enum Case<'a> {
    /// Nothing is answered: a section is headed, or something gets a name.
    Silent,
    /// This is the answer.
    Answer(Vec<u8>),
    /// A run, whose answer is how it ends, and the case that it is of.
    Run(Run, RunCase<'a>),
    /// A run of these lines for each beginning of this file.
    Cuts { file: &'a str, lines: &'a str },
    /// Runs of these lines with this file broken at each place in each way.
    Broken { file: &'a str, lines: &'a str },
    /// Each run before, but those with a title among these lines, again and again with a fault.
    Faults { but: &'a str },
}

/// What a case asks for. The text of a case `text: NAME` gets that name, and so do the files of a case `files: NAME`.
pub fn case_of<'a>(
    alloc: Global,
    texts: &mut Texts,
    case: &'a str,
) -> Result<Case<'a>, AllocError> {
    if case.starts_with('#') {
        return Ok(Case::Silent);
    }
    let (heading, lines) = case.split_once('\n').unwrap_or((case, ""));
    let (kind, title) = heading.split_once(": ").unwrap_or((heading, ""));
    if kind == "run" {
        return run_case(alloc, texts, RunCase { title, lines });
    }
    if let Some(file) = kind.strip_prefix("cuts ") {
        return Ok(Case::Cuts { file, lines });
    }
    if let Some(file) = kind.strip_prefix("broken ") {
        return Ok(Case::Broken { file, lines });
    }
    if kind == "faults" {
        return Ok(Case::Faults { but: lines });
    }
    if kind == "files" {
        let lines = Vec::from_slice(alloc, lines.as_bytes())?;
        texts.name(alloc, title, lines)?;
        return Ok(Case::Silent);
    }
    let Some(text) = texts.text_of(alloc, lines)? else {
        return unread(alloc, "a line of this case is none of a text");
    };
    match kind {
        "text" => {
            texts.name(alloc, title, text)?;
            Ok(Case::Silent)
        }
        "store" => Ok(Case::Answer(stores::answer(alloc, &text)?)),
        _ => unread(alloc, "no kind of case"),
    }
}

fn run_case<'a>(alloc: Global, texts: &Texts, case: RunCase<'a>) -> Result<Case<'a>, AllocError> {
    match run_of(alloc, texts, case.lines)? {
        Some(run) => Ok(Case::Run(run, case)),
        None => unread(alloc, "a line of this case is none of a run"),
    }
}

fn unread<'a>(alloc: Global, why: &str) -> Result<Case<'a>, AllocError> {
    Ok(Case::Answer(Vec::from_slice(alloc, why.as_bytes())?))
}
