use crate::answers::{Answer, answer_to};
use case_lines::{Answers, spell, write_answer};
use std::alloc::{AllocError, Global};

/// Answers a case of a text.
pub struct TextCases;

impl Answers for TextCases {
    fn answer(
        &self,
        alloc: Global,
        heading: &str,
        lines: &str,
        out: &mut Vec<u8>,
    ) -> Result<(), AllocError> {
        let (kind, _title) = heading.split_once(':').unwrap_or((heading, ""));
        let mut text = Vec::new(alloc);
        if spell_lines(lines, &mut text)? {
            answer_text(alloc, kind, &text, out)
        } else {
            write_answer(out, b"a line of this case spells nothing")
        }
    }
}

fn answer_text(
    alloc: Global,
    kind: &str,
    text: &[u8],
    out: &mut Vec<u8>,
) -> Result<(), AllocError> {
    if let Some(kind) = kind.strip_prefix("cuts ") {
        return answer_cuts(alloc, kind, text, out);
    }
    if let Some(kind) = kind.strip_prefix("last ") {
        let shown = answer_to(alloc, kind, text)?.into_bytes();
        return write_answer(out, last_line(&shown));
    }
    write_answer(out, &answer_to(alloc, kind, text)?.into_bytes())
}

fn spell_lines(lines: &str, text: &mut Vec<u8>) -> Result<bool, AllocError> {
    for line in lines.lines() {
        if !spell(line, text)? {
            return Ok(false);
        }
    }
    Ok(true)
}

fn last_line(shown: &[u8]) -> &[u8] {
    let shown = shown.strip_suffix(b"\n").unwrap_or(shown);
    let mut last = shown;
    for at in 0..shown.len() {
        if shown[at] == b'\n' {
            last = &shown[at + 1..];
        }
    }
    last
}

// How each beginning of the text is answered, where that is another answer than before.
fn answer_cuts(
    alloc: Global,
    kind: &str,
    text: &[u8],
    out: &mut Vec<u8>,
) -> Result<(), AllocError> {
    let mut before = String::new(alloc);
    for len in 0..=text.len() {
        let found = outcome_of(alloc, kind, &text[..len])?;
        if found != before {
            let line = format!(in alloc; "from {len} bytes: {found}")?;
            write_answer(out, line.as_bytes())?;
            before = found;
        }
    }
    Ok(())
}

fn outcome_of(alloc: Global, kind: &str, text: &[u8]) -> Result<String, AllocError> {
    match answer_to(alloc, kind, text)? {
        Answer::Printed(_) => String::from_str(alloc, "is read"),
        Answer::Refused(fault) => Ok(fault),
    }
}
