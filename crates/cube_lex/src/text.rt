ghost use Rattle.std.specs.Prelude.{◌≡◌, ◌≤◌, ◌^◌, length, All, Option};
ghost use Rattle.cube_lex.specs.Inside.Counted.{Counts};
ghost use Rattle.cube_lex.specs.Lexed.{Lexed, IsWellFormed};
ghost use Rattle.cube_lex.specs.Reading.{IsReading};
ghost use Rattle.cube_lex.specs.declared.fault.LexFault.{LexFault};

use crate::fault::LexFault;
use crate::front::front_of;
use crate::left::TokensLeft;
use crate::lines::{MAX_TEXT_BYTES, line_ends, mark_len};
use crate::place::Place;
use crate::position::Position;

/// What a whole text is read as.
#[derive(Drop)]
pub struct TextTokens<'a> {
    /// Its tokens up to its first fault.
    pub left: TokensLeft<'a>,
    /// The place of the first fault, or of the text's end where there is none.
    pub end: Position,
    /// Its first fault, if it has one.
    pub fault: Option<LexFault>,
}

// How many tokens a text has up to its first fault.
#[derive(Clone, Copy)]
struct TokenCount {
    tokens: usize,
    end: Position,
    fault: Option<LexFault>,
}

fn counted(text: &[u8]) -> TokenCount
    requires { length text.now ≤ 2 ^ 30 }
    ensures { Counts text.now result }
{
    let mut tokens = 0;
    let mut at = mark_len(text);
    let mut line: u32 = 1;
    let (_, mut rest) = text.split_at(at);
    'parts: while !rest.is_empty() {
        let front = match front_of(rest, at) {
            Ok(front) => front,
            Err(fault) => {
                return TokenCount {
                    tokens,
                    end: Position {
                        offset: fault.offset(),
                        line,
                    },
                    fault: Some(fault),
                };
            }
        };
        if let Some(_) = front.kind {
            tokens += 1;
        }
        line += line_ends(front.bytes) as u32;
        at += front.bytes.len();
        rest = front.after;
    }
    TokenCount {
        tokens,
        end: Position {
            offset: text.len(),
            line,
        },
        fault: None,
    }
}

/// The tokens of a text up to its first fault, and that fault, which is never `Memory`. It takes no memory.
/// Of a text of more than 2^30 bytes nothing is read.
pub fn text_tokens(text: &[u8]) -> TextTokens<'_>
    ensures found { IsReading text.now (record { lexemes = result.left; end = result.end }) result.fault }
    ensures well_formed { All IsWellFormed result.left }
    // A text is read as one thing only, so this is it.
    ensures only { (lexed : Lexed) (fault : Option LexFault) → IsReading text.now lexed fault
        → ((record { lexemes = result.left; end = result.end }) ≡ lexed) × (result.fault ≡ fault) }
{
    if text.len() > MAX_TEXT_BYTES {
        let (within, _) = text.split_at(MAX_TEXT_BYTES);
        return TextTokens {
            left: TokensLeft::new(Place::end()),
            end: Position {
                offset: MAX_TEXT_BYTES,
                line: 1 + line_ends(within) as u32,
            },
            fault: Some(LexFault::TooLong(MAX_TEXT_BYTES)),
        };
    }
    let counted = counted(text);
    let place = Place::new(text, mark_len(text), 1, counted.tokens);
    TextTokens {
        left: TokensLeft::new(place),
        end: counted.end,
        fault: counted.fault,
    }
}
