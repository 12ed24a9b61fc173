use std::alloc::{AllocError, Global};

/// What answers the cases of a file.
pub trait Answers {
    /// Writes the answer to a case of this heading and these lines.
    fn answer(
        &self,
        alloc: Global,
        heading: &str,
        lines: &str,
        out: &mut Vec<u8>,
    ) -> Result<(), AllocError>;
}

/// The cases, each with its answer below it. What begins with `#` heads a section, and has none.
pub fn answered<A: Answers>(
    alloc: Global,
    cases: &str,
    answers: &A,
) -> Result<Vec<u8>, AllocError> {
    let mut out = Vec::new(alloc);
    for case in cases.split("\n\n") {
        let case = case.trim_matches('\n');
        out.extend_from_slice(case.as_bytes())?;
        out.push(b'\n')?;
        if !case.starts_with('#') {
            let (heading, lines) = case.split_once('\n').unwrap_or((case, ""));
            answers.answer(alloc, heading, lines, &mut out)?;
        }
        out.push(b'\n')?;
    }
    Ok(out)
}
