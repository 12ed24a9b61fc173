//! Cases of what no whole run shows, each told by the crate of its kind. `stdin` holds the cases and `stdout` what must
//! come; a case costs its run alone, and no proof. One program has all these kinds, since a program over the upper
//! crates costs its proof and its two builds, however little it does.
//!
//! A case is a heading `KIND: TITLE`, its lines, and an empty line. Lines that begin with `#` head a section. The
//! program writes each case again, and behind it what is found, each line behind `> `.
//!
//! - `course`, `fed`: what evaluation asks, and which cells are fed; `text: NAME` gives lines a name for these
//!   ([`rule_cases`]).
//! - `read`: each way of reading gives each cell the same value ([`read_cases`]).
//! - `load`: load scripts over cells that the case lists ([`script_cases`]).
//! - `memo`: two readers at one memo, over a model text ([`memo_cases`]).
//! - `run`, `told`: users on threads, a line each, and how they ended, or all that they were told ([`session_cases`]).
//! - `commits`: commits one after another, of which one finds no memory, and the history ([`session_cases::commits`]).
#![tactic(auto)]

mod answers;

use crate::answers::answered;
use std::io;
use std::io::Write;

fn main(rt: HostRuntime) -> io::Result<()> {
    let cases = io::read_to_string(rt.alloc(), rt.reader())?;
    let answers = answered(&rt, rt.alloc(), &cases)?;
    io::writer(&rt).write_all(&answers)
}
