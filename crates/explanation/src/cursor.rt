ghost use Rattle.std.specs.Prelude.{◌≡◌, ◌≤◌, ◌<◌, ◌+◌, ◌++◌, length, get_or, OnOk};
ghost use Rattle.explanation.specs.Cursor.{IsAt};
ghost use Rattle.explanation.specs.Explanation.{place_text};

use crate::lines::{push_numbers, push_place};
use crate::places::{front, line_at, line_part};
use cube_lex::mark_len;
use std::alloc::{AllocError, Global};

/// How far a text was read. Places that follow one another in a text are found by reading it once.
#[derive(Clone, Copy)]
pub struct TextCursor {
    /// The offset of a byte.
    at: usize,
    /// The line of that byte, from 1.
    line: usize,
    /// How many bytes of its line stand before it.
    part: usize,
}

impl TextCursor {
    /// At the beginning of a text, behind the byte order mark.
    pub fn new(text: &[u8]) -> TextCursor
        ensures { IsAt text.now result }
    {
        let at = mark_len(text);
        TextCursor {
            at,
            line: line_at(text, at),
            part: line_part(front(text, at)),
        }
    }
}

// One byte further.
fn passed(text: &[u8], cursor: TextCursor, byte: u8) -> TextCursor
    requires at { IsAt text.now cursor }
    requires inside { cursor.at < length text.now }
    requires byte { byte ≡ get_or text.now cursor.at 0 }
    ensures at { IsAt text.now result }
    ensures further { result.at ≡ cursor.at + 1 }
{
    let _text = text;
    let at = cursor.at + 1;
    if byte == b'\n' {
        TextCursor {
            at,
            line: cursor.line + 1,
            part: 0,
        }
    } else {
        TextCursor {
            at,
            line: cursor.line,
            part: cursor.part + 1,
        }
    }
}

// At a later offset, or at the end of the text.
fn moved(text: &[u8], cursor: TextCursor, to: usize) -> TextCursor
    requires at { IsAt text.now cursor }
    requires later { cursor.at ≤ to }
    ensures at { IsAt text.now result }
    ensures there { result.at ≡ to }
{
    let mut here = cursor;
    'byte: while here.at < to && here.at < text.len() {
        here = passed(text, here, text[here.at]);
    }
    TextCursor {
        at: to,
        line: here.line,
        part: here.part,
    }
}

/// Adds `FILE:LINE:COLUMN`, the place of the byte at an offset of a file's text, and moves the cursor to a later place.
/// It fails only when out of memory.
pub fn push_place_on(
    alloc: Global,
    out: &mut Vec<u8>,
    file: &[u8],
    text: &[u8],
    cursor: &mut TextCursor,
    at: usize,
) -> Result<(), AllocError>
    requires { IsAt text.now cursor.old }
    ensures place { OnOk result (out.new.items ≡ out.old.items ++ place_text file.now text.now at) }
    ensures at { IsAt text.now cursor.new }
{
    if at < cursor.at {
        return push_place(alloc, out, file, text, at);
    }
    *cursor = moved(text, *cursor, at);
    push_numbers(alloc, out, file, cursor.line, cursor.part + 1)
}
