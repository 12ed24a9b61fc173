use case_lines::{Texts, write_answer};
use std::alloc::{AllocError, Global};
use std::sync::Wait;
use std::thread::Threads;

/// The cases, each with its answer below it.
pub fn answered<R: Threads + Wait + Sync>(
    rt: &R,
    alloc: Global,
    cases: &str,
) -> Result<Vec<u8>, AllocError> {
    let mut texts = Texts::new(alloc);
    let mut out = Vec::new(alloc);
    for case in cases.split("\n\n") {
        let case = case.trim_matches('\n');
        out.extend_from_slice(case.as_bytes())?;
        out.push(b'\n')?;
        if !case.starts_with('#') {
            let (heading, lines) = case.split_once('\n').unwrap_or((case, ""));
            answer(rt, alloc, &mut texts, heading, lines, &mut out)?;
        }
        out.push(b'\n')?;
    }
    Ok(out)
}

fn answer<R: Threads + Wait + Sync>(
    rt: &R,
    alloc: Global,
    texts: &mut Texts,
    heading: &str,
    lines: &str,
    out: &mut Vec<u8>,
) -> Result<(), AllocError> {
    let (kind, _title) = heading.split_once(':').unwrap_or((heading, ""));
    match kind {
        "read" => write_answer(out, &read_cases::readings(alloc, lines)?),
        "load" => script_cases::answer_load(alloc, lines, out),
        "memo" | "run" | "told" | "commits" => match texts.text_of(alloc, lines)? {
            Some(text) => answer_at_once(rt, alloc, kind, text, out),
            None => write_answer(out, b"a line of this case is none of a text"),
        },
        _ => match rule_cases::answer_to(alloc, texts, heading, lines)? {
            Some(told) => write_answer(out, told.as_bytes()),
            None => Ok(()),
        },
    }
}

// The kinds that take threads.
fn answer_at_once<R: Threads + Wait + Sync>(
    rt: &R,
    alloc: Global,
    kind: &str,
    text: Vec<u8>,
    out: &mut Vec<u8>,
) -> Result<(), AllocError> {
    if kind == "memo" {
        let told = memo_cases::readings(rt, alloc, &text)?;
        return write_answer(out, told.as_bytes());
    }
    let Ok(text) = String::from_utf8(text) else {
        return write_answer(out, b"this case is no text");
    };
    let told = match kind {
        "commits" => session_cases::commits(rt, alloc, text.trim_end())?,
        "told" => session_cases::replies_of(rt, alloc, &text)?,
        _ => session_cases::ending_of(rt, alloc, &text)?,
    };
    write_answer(out, told.as_bytes())
}
