//! Cases of whole runs, over files and a sink in memory. `stdin` holds the cases and `stdout` what must come; a case
//! costs its run alone, and no proof.
//!
//! A case is a heading, its lines, and an empty line:
//!
//! ```text
//! run: a total                         KIND: TITLE
//! words model.txt a.txt                the words of the program
//! file model.txt                       a file, of the lines that follow
//! +plan                                the lines of the text that is named `plan`
//! file a.txt
//! |GET 'Plan' ('Actual', 'Q1');        a line, with its line end
//! ```
//!
//! Lines of a file are those of [`case_lines::spell`]. A case `text: NAME` gives its lines a name, for later cases, and
//! so does a case `files: NAME` to its files. Before the files of a run may stand:
//!
//! - `files NAME`, the files of that name; a file that the run has itself stands in their place;
//! - `word WORD`, for a word that is empty or has spaces;
//! - `read 2 fails`, and `write 2 fails after 3`, where the first 3 bytes of that piece are written;
//! - `hold 2 1 0 until 1 2 3`, where user 2 waits at part 0 of its command 1 until user 1 has passed part 3 of its
//!   command 2; with `for 1000` behind it no longer than so many turns of a loop. There may be several such lines.
//!
//! Reads, writes, users and commands count from 1. What a run writes has to be the same in whatever order users
//! come.
//!
//! A case `cuts FILE: TITLE` is a run for each beginning of that file, and a case `broken FILE: TITLE` one for each of
//! its places and each way to break it there ([`broken::ends_of_broken`]).
//!
//! A case `faults: TITLE` runs each case `run` above it again that ends with Done, with each of its reads and writes
//! failing in turn ([`faults::ends_with_faults`]). Its lines are the titles of cases that take too long for that.
//!
//! A case `store: TITLE` is one of stored cells; [`stores::answer`] has its lines. Lines that begin with `#` head a
//! section.
//!
//! The program writes each case again, and behind it the answer, each line of it behind `> `: of a run its status,
//! what was written, and whether a user who was held went on all the same; of cuts this for each beginning that ends
//! otherwise than the one before.
#![tactic(auto)]

mod broken;
mod cases;
mod endings;
mod faults;
mod runs;
mod stores;

use crate::broken::ends_of_broken;
use crate::cases::{Case, case_of};
use crate::endings::{ending_of, endings_of_cuts};
use crate::faults::{RunCase, ends_with_faults};
use case_lines::{Texts, write_answer};
use std::alloc::AllocError;
use std::io;
use std::io::Write;
use std::sync::Wait;
use std::thread::Threads;

fn main(rt: HostRuntime) -> io::Result<()> {
    let cases = io::read_to_string(rt.alloc(), rt.reader())?;
    let mut texts = Texts::new(rt.alloc());
    let mut runs = Vec::new(rt.alloc());
    let mut written = Vec::new(rt.alloc());
    for case in cases.trim_end_matches('\n').split("\n\n") {
        let case = case.trim_matches('\n');
        written.extend_from_slice(case.as_bytes())?;
        written.push(b'\n')?;
        if let Some(answer) = answer_to(&rt, &mut texts, &mut runs, case)? {
            write_answer(&mut written, &answer)?;
        }
        written.push(b'\n')?;
    }
    io::writer(&rt).write_all(&written)
}

// The answer to a case, where it has one. Cases of runs that end with Done are kept.
fn answer_to<'a, R: Threads + Wait + AllocGlobal + Sync>(
    rt: &R,
    texts: &mut Texts,
    runs: &mut Vec<RunCase<'a>>,
    case: &'a str,
) -> Result<Option<Vec<u8>>, AllocError> {
    let answer = match case_of(rt.alloc(), texts, case)? {
        Case::Silent => return Ok(None),
        Case::Answer(answer) => answer,
        Case::Run(run, run_case) => {
            let ending = ending_of(rt, run)?;
            if ending.starts_with(b"Done\n") {
                runs.push(run_case)?;
            }
            ending
        }
        Case::Cuts { file, lines } => endings_of_cuts(rt, texts, file, lines)?,
        Case::Broken { file, lines } => ends_of_broken(rt, texts, file, lines)?,
        Case::Faults { but } => ends_with_faults(rt, texts, runs, but)?,
    };
    Ok(Some(answer))
}
