ghost use Rattle.std.specs.Prelude.{◌≡◌, ◌<◌, map, [], ◌∷◌, length, take, OnOk, OnErr};
ghost use Rattle.std.specs.List.{AllByRecursion};
ghost use Rattle.cube_lex.specs.Piece.{token_of, CanBeWritten};
ghost use Rattle.cube_lex.specs.Written.{Spaces, Writes};

use crate::written::{
    write_line_end, write_number, write_quoted, write_sign, write_whole, write_word,
};
use std::alloc::{AllocError, Global};

/// A token that is to be written.
#[derive(Clone, Copy)]
pub enum Piece<'a> {
    /// As `DIM`.
    Word(&'a [u8]),
    /// Digits, and perhaps a point and digits.
    Number(&'a [u8]),
    /// A whole number, in digits without leading zeros.
    Whole(u64),
    /// As `=>`.
    Sign(&'a [u8]),
    /// These bytes in quotes, each quote among them doubled.
    Quoted(&'a [u8]),
}

// Writes this token and a space. A refusal changes nothing.
fn write_piece(alloc: Global, out: &mut Vec<u8>, piece: &Piece<'_>) -> Result<(), AllocError>
    requires { CanBeWritten piece.now }
    ensures ok { OnOk result (Spaces out.old.items out.new.items (token_of piece.now ∷ [])) }
    ensures err { OnErr result (out.new.items ≡ out.old.items) }
{
    match *piece {
        Piece::Word(word) => write_word(out, word),
        Piece::Number(digits) => write_number(out, digits),
        Piece::Whole(number) => write_whole(alloc, out, number),
        Piece::Sign(sign) => write_sign(out, sign),
        Piece::Quoted(bytes) => write_quoted(out, bytes),
    }
}

// Writes these tokens, a space behind each. What a refusal leaves begins as before.
fn push_pieces(alloc: Global, out: &mut Vec<u8>, pieces: &[Piece<'_>]) -> Result<(), AllocError>
    requires { AllByRecursion CanBeWritten pieces.now }
    ensures ok { OnOk result (Spaces out.old.items out.new.items (map token_of pieces.now)) }
    ensures begins { take (length out.old.items) out.new.items ≡ out.old.items }
{
    for piece in pieces {
        write_piece(alloc, out, piece)?;
    }
    Ok(())
}

// The same, and then the line's end.
fn push_line(alloc: Global, out: &mut Vec<u8>, pieces: &[Piece<'_>]) -> Result<(), AllocError>
    requires some { 0 < length pieces.now }
    requires written { AllByRecursion CanBeWritten pieces.now }
    ensures ok { OnOk result (Writes out.old.items out.new.items (map token_of pieces.now)) }
    ensures begins { take (length out.old.items) out.new.items ≡ out.old.items }
{
    push_pieces(alloc, out, pieces)?;
    write_line_end(out)
}

/// Writes these tokens, a space behind each. A refusal changes nothing.
pub fn write_pieces(
    alloc: Global,
    out: &mut Vec<u8>,
    pieces: &[Piece<'_>],
) -> Result<(), AllocError>
    requires { AllByRecursion CanBeWritten pieces.now }
    ensures ok { OnOk result (Spaces out.old.items out.new.items (map token_of pieces.now)) }
    ensures err { OnErr result (out.new.items ≡ out.old.items) }
{
    let len = out.len();
    let written = push_pieces(alloc, out, pieces);
    if written.is_err() {
        out.truncate(len);
    }
    written
}

/// Writes these tokens, a space behind each, and a line end, LF, behind the last. A refusal changes nothing.
pub fn write_line(alloc: Global, out: &mut Vec<u8>, pieces: &[Piece<'_>]) -> Result<(), AllocError>
    requires some { 0 < length pieces.now }
    requires written { AllByRecursion CanBeWritten pieces.now }
    ensures ok { OnOk result (Writes out.old.items out.new.items (map token_of pieces.now)) }
    ensures err { OnErr result (out.new.items ≡ out.old.items) }
{
    let len = out.len();
    let written = push_line(alloc, out, pieces);
    if written.is_err() {
        out.truncate(len);
    }
    written
}
