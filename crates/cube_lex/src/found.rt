ghost use Rattle.std.specs.Prelude.{◌≡◌, length};
ghost use Rattle.cube_lex.specs.Ahead.{TokensFrom};
ghost use Rattle.cube_lex.specs.Inside.Found.{IsFound};

use crate::front::front_of;
use crate::lines::line_ends;
use crate::token::Token;

/// A token, and the offset and the line behind it.
#[derive(Clone, Copy)]
pub struct Found<'a> {
    pub token: Token<'a>,
    pub at: usize,
    pub line: u32,
}

/// The first of so many tokens that are left in the text from this offset on, which is on this line.
pub fn found_from(text: &[u8], start: usize, first: u32, left: usize) -> Option<Found<'_>>
    requires { TokensFrom text.now start first left }
    ensures { IsFound text.now start first left result }
{
    if left == 0 {
        return None;
    }
    let mut at = start;
    let mut line = first;
    let (_, mut rest) = text.split_at(at);
    'parts: while !rest.is_empty() {
        let Ok(front) = front_of(rest, at) else {
            return None;
        };
        let behind = at + front.bytes.len();
        let line_behind = line + line_ends(front.bytes) as u32;
        if let Some(kind) = front.kind {
            let token = Token {
                kind,
                piece: front.bytes,
                start: at,
                line,
            };
            return Some(Found {
                token,
                at: behind,
                line: line_behind,
            });
        }
        at = behind;
        line = line_behind;
        rest = front.after;
    }
    None
}
