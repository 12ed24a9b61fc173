use crate::commands::answer_commands;
use crate::files::Files;
use crate::kind::Kind;
use crate::models::{counts_of, model_of};
use crate::refusal::Refusal;
use case_lines::Texts;
use feed_sources::SourceModel;
use std::alloc::{AllocError, Global};

/// The answer to a case, where it has one. The text of a case `text: NAME` gets that name.
pub fn answer_to(
    alloc: Global,
    texts: &mut Texts,
    heading: &str,
    lines: &str,
) -> Result<Option<String>, AllocError> {
    if let Some(name) = heading.strip_prefix("text: ") {
        let Some(text) = texts.text_of(alloc, lines)? else {
            return unread(alloc);
        };
        texts.name(alloc, name, text)?;
        return Ok(None);
    }
    let Some(files) = Files::of(alloc, texts, lines)? else {
        return unread(alloc);
    };
    match answer_of(alloc, &files, Kind::of(heading)) {
        Ok(answer) => Ok(Some(answer)),
        Err(Refusal::Told(answer)) => Ok(Some(answer)),
        Err(Refusal::Memory) => Err(AllocError),
    }
}

fn unread(alloc: Global) -> Result<Option<String>, AllocError> {
    Ok(Some(String::from_str(alloc, "a line of this case is none of a text")?))
}

// What is printed of the rules of these files, and then of each command.
fn answer_of(alloc: Global, files: &Files, kind: Kind) -> Result<String, Refusal> {
    let model = model_of(alloc, files)?;
    let mut told = counts_of(alloc, &model)?;
    let sources = SourceModel::of(alloc, model)?;
    answer_commands(alloc, &sources, files.file("user"), kind, &mut told)?;
    Ok(told)
}
