ghost use Rattle.std.specs.Prelude.{◌≡◌, ◌≢◌, ◌⊎◌, ℕ, ◌<◌, ◌≤◌, ◌^◌, length, IfOk, IfErr, Ok, Err, Some, None, Option};
ghost use Rattle.std.specs.Prelude.{MatchResult, All};
ghost use Rattle.cube_lex.specs.Lexed.{Lexed, IsWellFormed};
ghost use Rattle.cube_lex.specs.Reading.{IsReading};
ghost use Rattle.cube_lex.specs.declared.fault.LexFault.{LexFault};
ghost use Rattle.cube_lex.specs.declared.fault.LexFault.TheVariants.{Memory};

use crate::fault::LexFault;
use crate::front::front_of;
use crate::lexed::Tokens;
use crate::lines::{MAX_TEXT_BYTES, line_ends, mark_len};
use crate::position::Position;
use crate::token::Token;
use std::alloc::{AllocError, Global};

fn read(alloc: Global, text: &[u8]) -> Result<(Tokens<'_>, Option<LexFault>), AllocError>
    requires { length text.now ≤ 2 ^ 30 }
    ensures { IfOk result (λ read. IsReading text.now read.0 read.1) }
{
    let mut tokens = Vec::new(alloc);
    let mut at = mark_len(text);
    let mut line: u32 = 1;
    let (_, mut rest) = text.split_at(at);
    'parts: while !rest.is_empty() {
        let front = match front_of(rest, at) {
            Ok(front) => front,
            Err(fault) => {
                let end = Position {
                    offset: fault.offset(),
                    line,
                };
                return Ok((Tokens::new(text, tokens, end), Some(fault)));
            }
        };
        if let Some(kind) = front.kind {
            tokens.push(Token {
                kind,
                piece: front.bytes,
                start: at,
                line,
            })?;
        }
        line += line_ends(front.bytes) as u32;
        at += front.bytes.len();
        rest = front.after;
    }
    let end = Position {
        offset: text.len(),
        line,
    };
    Ok((Tokens::new(text, tokens, end), None))
}

/// The tokens of a text up to its first fault, and that fault, which is never `Memory`; `None` where the text has none.
/// Of a text of more than 2^30 bytes nothing is read.
pub fn tokens_until(
    alloc: Global,
    text: &[u8],
) -> Result<(Tokens<'_>, Option<LexFault>), AllocError>
    ensures found { IfOk result (λ read. IsReading text.now read.0 read.1) }
    ensures well_formed { IfOk result (λ read. All IsWellFormed read.0.lexemes) }
    // A text is read as one thing only, so this is it.
    ensures only { (lexed : Lexed) (fault : Option LexFault) → IsReading text.now lexed fault
        → IfOk result (λ read. (read.0 ≡ lexed) × (read.1 ≡ fault)) }
{
    if text.len() > MAX_TEXT_BYTES {
        let (within, _) = text.split_at(MAX_TEXT_BYTES);
        let end = Position {
            offset: MAX_TEXT_BYTES,
            line: 1 + line_ends(within) as u32,
        };
        let fault = LexFault::TooLong(MAX_TEXT_BYTES);
        return Ok((Tokens::new(&[], Vec::new(alloc), end), Some(fault)));
    }
    read(alloc, text)
}

/// The tokens of a text that has no fault, or its first fault.
pub fn tokens(alloc: Global, text: &[u8]) -> Result<Tokens<'_>, LexFault>
    ensures read { IfOk result (λ lexed. IsReading text.now lexed None) }
    ensures fault { IfErr result (λ fault. fault ≢ Memory → (lexed : Lexed) × IsReading text.now lexed (Some fault)) }
    // A text is read as one thing only, so one without fault is never refused, unless out of memory.
    ensures only { (lexed : Lexed) (fault : Option LexFault) → IsReading text.now lexed fault
        → MatchResult result (λ tokens. (tokens ≡ lexed) × (fault ≡ None))
        (λ cause. (cause ≡ Memory) ⊎ (fault ≡ Some cause)) }
{
    let (tokens, fault) = tokens_until(alloc, text)?;
    match fault {
        None => Ok(tokens),
        Some(fault) => Err(fault),
    }
}
