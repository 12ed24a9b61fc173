use crate::runs::{LONGEST, Run, run_of};
use case_lines::Texts;
use cube_server::run_cubes;
use std::alloc::AllocError;
use std::sync::Wait;
use std::thread::Threads;

/// How a run ends, a line each: its status, what it wrote, and that its gate gave up.
pub fn ending_of<R: Threads + Wait + AllocGlobal + Sync>(
    rt: &R,
    mut run: Run,
) -> Result<Vec<u8>, AllocError> {
    let alloc = rt.alloc();
    let status = run_cubes(rt, &run.words, &mut run.files, &mut run.out, &run.gate);
    let mut ending = format!(in alloc; "{status:?}\n")?.into_bytes();
    let text = run.out.bytes();
    ending.extend_from_slice(text)?;
    if !text.is_empty() && !text.ends_with(b"\n") {
        ending.extend_from_slice(b"\nwithout a line end\n")?;
    }
    if run.gate.gave_up() {
        ending.extend_from_slice(b"the gate gave up\n")?;
    }
    Ok(ending)
}

/// How a run ends with each beginning of one of its files, from the shortest on. An ending is printed where it differs
/// from that of the beginning before.
pub fn endings_of_cuts<R: Threads + Wait + AllocGlobal + Sync>(
    rt: &R,
    texts: &Texts,
    file: &str,
    lines: &str,
) -> Result<Vec<u8>, AllocError> {
    let alloc = rt.alloc();
    let mut told = Vec::new(alloc);
    let mut last = Vec::new(alloc);
    for length in 0..LONGEST {
        let Some(ending) = ending_of_cut(rt, texts, file, lines, length)? else {
            break;
        };
        if ending.as_slice() != last.as_slice() {
            let heading = format!(in alloc; "from {length} bytes on\n")?;
            told.extend_from_slice(heading.as_bytes())?;
            told.extend_from_slice(&ending)?;
            last = ending;
        }
    }
    Ok(told)
}

// How a run ends whose file has so many bytes alone; None where it has no more.
fn ending_of_cut<R: Threads + Wait + AllocGlobal + Sync>(
    rt: &R,
    texts: &Texts,
    file: &str,
    lines: &str,
    length: usize,
) -> Result<Option<Vec<u8>>, AllocError> {
    let alloc = rt.alloc();
    let Some(mut run) = run_of(alloc, texts, lines)? else {
        return Ok(None);
    };
    if !run.cut(alloc, file, length)? {
        return Ok(None);
    }
    Ok(Some(ending_of(rt, run)?))
}
