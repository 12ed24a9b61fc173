//! Cases of everything that is read from a text, and of what is computed over such texts. `stdin` holds the cases and
//! `stdout` what must come; a case costs its run alone, and no proof.
//!
//! A case is a heading, the lines of its text, and an empty line:
//!
//! ```text
//! dim: an element twice                KIND: TITLE
//! |DIM 'a';                            a line of the text, with its line end
//! .END;                                a part of a line, without one
//! x 00 0D EF BB BF                     bytes in hex
//! 1000 |N 'e {n}';                     a piece so many times, `{n}` in it being 1, 2, 3 ..
//! ```
//!
//! The kinds are those of [`answers::answer_to`]. `last KIND` shows the last line of the answer alone, and `cuts KIND`
//! each beginning of the text, a line where the answer becomes another one. Lines that begin with `#` head a section.
//!
//! The program writes each case again, and behind it the answer, each line of it behind `> `.
#![tactic(auto)]

mod answers;
mod cases;
mod commands;
mod dimensions;
mod models;
mod numbers;
mod texts;
mod tokens;

use crate::cases::TextCases;
use case_lines::answered;
use std::io;
use std::io::Write;

fn main(rt: HostRuntime) -> io::Result<()> {
    let cases = io::read_to_string(rt.alloc(), rt.reader())?;
    let answers = answered(rt.alloc(), &cases, &TextCases)?;
    io::writer(&rt).write_all(&answers)
}
