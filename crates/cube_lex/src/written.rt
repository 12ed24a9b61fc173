ghost use Rattle.std.specs.Prelude.{◌≡◌, ◌≤◌, ℕ, List, [], ◌∷◌, ◌++◌, length, map, take, IsTrue, OnOk, OnErr, Option};
ghost use Rattle.std.specs.Prelude.{None, decimal};
ghost use Rattle.std.specs.List.{list_all};
ghost use Rattle.dim_name.specs.Bytes.{newline, space};
ghost use Rattle.cube_lex.specs.Bytes.{is_plain};
ghost use Rattle.cube_lex.specs.Parts.{IsWord, IsNumber, is_sign, most_token_bytes};
ghost use Rattle.cube_lex.specs.Quoted.{quoted};
ghost use Rattle.cube_lex.specs.Lexed.{Lexed};
ghost use Rattle.cube_lex.specs.Reading.{IsReading, most_text_bytes};
ghost use Rattle.cube_lex.specs.Written.{Spelling, spelling_of, IsWritten, Adds, Spaces, HasReading};
ghost use Rattle.cube_lex.specs.Written.{word_token, number_token, sign_token, text_token};
ghost use Rattle.cube_lex.specs.declared.fault.LexFault.{LexFault};

use crate::quoted::QUOTE;
use std::alloc::{AllocError, Global};
use std::fmt::Display;

/// Writes a piece and a space. A refusal changes nothing.
fn write_spaced(out: &mut Vec<u8>, piece: &[u8]) -> Result<(), AllocError>
    ensures ok { OnOk result (out.new.items ≡ (out.old.items ++ piece.now) ++ space ∷ []) }
    ensures err { OnErr result (out.new.items ≡ out.old.items) }
{
    let len = out.len();
    out.extend_from_slice(piece)?;
    if let Err(full) = out.push(b' ') {
        out.truncate(len);
        return Err(AllocError::from(full));
    }
    Ok(())
}

/// Writes a word, as `DIM`, and a space.
pub fn write_word(out: &mut Vec<u8>, word: &[u8]) -> Result<(), AllocError>
    requires word { IsWord word.now }
    requires short { length word.now ≤ most_token_bytes }
    ensures ok { OnOk result (Adds out.old.items out.new.items (word_token word.now ∷ [])) }
    ensures spaced { OnOk result (Spaces out.old.items out.new.items (word_token word.now ∷ [])) }
    ensures err { OnErr result (out.new.items ≡ out.old.items) }
{
    write_spaced(out, word)
}

/// Writes a number, as `12.5`, and a space.
pub fn write_number(out: &mut Vec<u8>, number: &[u8]) -> Result<(), AllocError>
    requires number { IsNumber number.now }
    requires short { length number.now ≤ most_token_bytes }
    ensures ok { OnOk result (Adds out.old.items out.new.items (number_token number.now ∷ [])) }
    ensures spaced { OnOk result (Spaces out.old.items out.new.items (number_token number.now ∷ [])) }
    ensures err { OnErr result (out.new.items ≡ out.old.items) }
{
    write_spaced(out, number)
}

/// Writes a whole number in digits without leading zeros, and a space.
pub fn write_whole(alloc: Global, out: &mut Vec<u8>, number: u64) -> Result<(), AllocError>
    ensures ok { OnOk result (Adds out.old.items out.new.items (number_token (decimal number) ∷ [])) }
    ensures spaced { OnOk result (Spaces out.old.items out.new.items (number_token (decimal number) ∷ [])) }
    ensures err { OnErr result (out.new.items ≡ out.old.items) }
{
    let digits = number.to_string(alloc)?;
    write_spaced(out, digits.as_bytes())
}

/// Writes a sign, as `=>`, and a space.
pub fn write_sign(out: &mut Vec<u8>, sign: &[u8]) -> Result<(), AllocError>
    requires { IsTrue (is_sign sign.now) }
    ensures ok { OnOk result (Adds out.old.items out.new.items (sign_token sign.now ∷ [])) }
    ensures spaced { OnOk result (Spaces out.old.items out.new.items (sign_token sign.now ∷ [])) }
    ensures err { OnErr result (out.new.items ≡ out.old.items) }
{
    write_spaced(out, sign)
}

/// Writes the quoted text that means the bytes, each quote among them doubled, and a space.
pub fn write_quoted(out: &mut Vec<u8>, bytes: &[u8]) -> Result<(), AllocError>
    requires plain { IsTrue (list_all is_plain bytes.now) }
    requires short { length (quoted bytes.now) ≤ most_token_bytes }
    ensures ok { OnOk result (Adds out.old.items out.new.items (text_token bytes.now ∷ [])) }
    ensures spaced { OnOk result (Spaces out.old.items out.new.items (text_token bytes.now ∷ [])) }
    ensures err { OnErr result (out.new.items ≡ out.old.items) }
{
    let len = out.len();
    let written = push_quoted(out, bytes);
    if written.is_err() {
        out.truncate(len);
    }
    written
}

/// Writes a line end, LF, which is no token.
pub fn write_line_end(out: &mut Vec<u8>) -> Result<(), AllocError>
    ensures byte { OnOk result (out.new.items ≡ out.old.items ++ newline ∷ []) }
    ensures ok { OnOk result (Adds out.old.items out.new.items []) }
    ensures err { OnErr result (out.new.items ≡ out.old.items) }
{
    out.push(b'\n')?;
    Ok(())
}

/// Writes the quoted text and a space. What a refusal leaves begins as before.
fn push_quoted(out: &mut Vec<u8>, bytes: &[u8]) -> Result<(), AllocError>
    ensures ok { OnOk result (out.new.items ≡ (out.old.items ++ quoted bytes.now) ++ space ∷ []) }
    ensures begins { take (length out.old.items) out.new.items ≡ out.old.items }
{
    out.push(QUOTE)?;
    for byte in bytes {
        if *byte == QUOTE {
            out.push(QUOTE)?;
        }
        out.push(*byte)?;
    }
    out.push(QUOTE)?;
    out.push(b' ')?;
    Ok(())
}

/// What the calls above have written, of at most 2^30 bytes, is read as just these tokens, and has no fault.
pub fn what_is_written_is_read()
    ensures { (tokens : List Spelling) (text : List ℕ) (lexed : Lexed) (fault : Option LexFault)
        → IsWritten tokens text → length text ≤ most_text_bytes → IsReading text lexed fault
        → (map spelling_of lexed.lexemes ≡ tokens) × (fault ≡ None) }
{}

/// And there is such a reading.
pub fn what_is_written_has_a_reading()
    ensures { (tokens : List Spelling) (text : List ℕ)
        → IsWritten tokens text → length text ≤ most_text_bytes → HasReading tokens text }
{}
