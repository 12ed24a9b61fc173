//! The planning server as a program: `cube_program MODEL USER...`.
#![tactic(auto)]

use cube_outside::{FreeGate, HostFiles, HostSink};
use cube_server::{Status, run_cubes};
use std::process::ExitCode;
use std::{env, io};

fn main(rt: HostRuntime) -> ExitCode {
    let mut files = HostFiles::new(rt.alloc(), &rt);
    let mut out = HostSink::new(&rt);
    let words = match words(&rt) {
        Ok(words) => words,
        Err(error) if error.kind() == io::ErrorKind::OutOfMemory => {
            return ExitCode::from(Status::NoMemory.code());
        }
        // A word that is no text is in no grammar.
        Err(_) => Vec::new(rt.alloc()),
    };
    let status = run_cubes(&rt, &words, &mut files, &mut out, &FreeGate);
    ExitCode::from(status.code())
}

// The words after the program's own name.
fn words<R: std::rt::Env + AllocGlobal>(rt: &R) -> io::Result<Vec<String>> {
    Ok(env::args(rt)?.skip(1).collect(rt.alloc())?)
}
