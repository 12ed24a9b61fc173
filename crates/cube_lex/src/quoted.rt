ghost use Rattle.std.specs.Prelude.{◌≡◌, IfOk};
ghost use Rattle.cube_lex.specs.Bytes.{is_plain};
ghost use Rattle.cube_lex.specs.Inside.Front.{EndsQuote};
ghost use Rattle.cube_lex.specs.Parts.{IsQuoted};
ghost use Rattle.cube_lex.specs.Quoted.{unquoted, quoted};

use std::alloc::{AllocError, Global};

/// What stands around a quoted text; inside, two mean one.
pub const QUOTE: u8 = b'\'';

/// How a quoted text goes on behind its first quote.
#[derive(Clone, Copy)]
pub enum QuoteEnd {
    /// Its last quote stands at this place.
    Closed(usize),
    /// A byte that may not stand in it is at this place.
    Forbidden(usize),
    /// The text ends before it does.
    Open,
}

fn is_plain(byte: u8) -> bool
    ensures { result ≡ is_plain byte }
{
    byte >= 0x20 && byte != 0x7F
}

/// Finds the end of a quoted text in the bytes behind its first quote.
pub fn quote_end(bytes: &[u8]) -> QuoteEnd
    ensures { EndsQuote bytes.now result }
{
    let mut at = 0;
    'bytes: while at < bytes.len() {
        let byte = bytes[at];
        if byte == QUOTE {
            if at + 1 == bytes.len() || bytes[at + 1] != QUOTE {
                return QuoteEnd::Closed(at);
            }
            at += 2;
        } else if is_plain(byte) {
            at += 1;
        } else {
            return QuoteEnd::Forbidden(at);
        }
    }
    QuoteEnd::Open
}

/// The bytes that a quoted text means: without the outer quotes, each doubled quote being one.
/// Of a piece that is no quoted text it takes off the first and the last byte all the same.
pub fn unquoted(alloc: Global, piece: &[u8]) -> Result<Vec<u8>, AllocError>
    ensures value { IfOk result (λ bytes. bytes.items ≡ unquoted piece.now) }
    ensures same { IsQuoted piece.now → IfOk result (λ bytes. quoted bytes.items ≡ piece.now) }
{
    let mut bytes = Vec::new(alloc);
    if piece.len() < 2 {
        return Ok(bytes);
    }
    let mut rest = &piece[1..piece.len() - 1];
    'bytes: while let [byte, after @ ..] = rest {
        bytes.push(*byte)?;
        rest = match after {
            [_, behind @ ..] if *byte == QUOTE => behind,
            _ => after,
        };
    }
    Ok(bytes)
}
