ghost use Rattle.std.specs.Prelude.{◌≡◌, ◌++◌, IfOk, OnOk};
ghost use Rattle.cube_lex.specs.Lexeme.{lexeme_of};
ghost use Rattle.explanation.specs.Cursor.{IsAt};
ghost use Rattle.file_passes.specs.Pass.{bytes_of};
ghost use Rattle.note_lines.specs.Bare as bare;

use cube_lex::{Kind, Token, TokensLeft, text_tokens};
use explanation::{TextCursor, push_place_on};
use file_passes::Readings;
use grammar::{is_sign, is_word};
use std::alloc::{AllocError, Global};

// Whether a quoted text and `;` come.
fn names_alone(next: &TokensLeft<'_>) -> bool
    ensures { result ≡ bare.names_alone next.now }
{
    let Some(name) = next.first() else {
        return false;
    };
    let mut behind = next.again();
    behind.advance();
    match (name.kind, behind.first()) {
        (Kind::Text, Some(end)) => is_sign(&end, b";"),
        _ => false,
    }
}

// Whether a consolidated element without components begins with this token.
fn is_bare(token: &Token<'_>, next: &TokensLeft<'_>) -> bool
    ensures { result ≡ bare.is_bare (lexeme_of token.now) next.now }
{
    is_word(token, b"C") && names_alone(next)
}

// The first of these tokens as it is written.
fn first_piece<'a>(next: &TokensLeft<'a>) -> &'a [u8]
    ensures { result.now ≡ bare.first_piece next.now }
{
    match next.first() {
        Some(token) => token.piece,
        None => &[],
    }
}

// Adds the line of the one that begins with this token, and moves the cursor there.
fn push_bare(
    alloc: Global,
    lines: &mut Vec<u8>,
    file: &[u8],
    text: &[u8],
    cursor: &mut TextCursor,
    token: &Token<'_>,
    next: &TokensLeft<'_>,
) -> Result<(), AllocError>
    requires { IsAt text.now cursor.old }
    ensures line { OnOk result (lines.new.items
        ≡ lines.old.items ++ bare.bare_line file.now text.now (lexeme_of token.now) next.now) }
    ensures at { IsAt text.now cursor.new }
{
    lines.extend_from_slice(b"note ")?;
    push_place_on(alloc, lines, file, text, cursor, token.start)?;
    lines.extend_from_slice(b" NoComponents ")?;
    lines.extend_from_slice(first_piece(next))?;
    lines.push(b'\n')?;
    Ok(())
}

// The lines of all of them among these tokens.
fn lines_among(
    alloc: Global,
    file: &[u8],
    text: &[u8],
    tokens: TokensLeft<'_>,
) -> Result<Vec<u8>, AllocError>
    ensures { IfOk result (λ lines. lines.items ≡ bare.bare_lines file.now text.now tokens.entry) }
{
    let mut lines = Vec::new(alloc);
    let mut cursor = TextCursor::new(text);
    let mut left = tokens;
    'token: while let Some(token) = left.first() {
        left.advance();
        if !is_bare(&token, &left) {
            continue;
        }
        push_bare(alloc, &mut lines, file, text, &mut cursor, &token, &left)?;
    }
    Ok(lines)
}

fn lines_of(alloc: Global, file: &[u8], text: &[u8]) -> Result<Vec<u8>, AllocError>
    ensures { IfOk result (λ lines. bare.AreBareLines file.now text.now lines.items) }
{
    lines_among(alloc, file, text, text_tokens(text).left)
}

/// The lines of the consolidated elements without components in the model text of this file.
pub(crate) fn bare_lines(
    alloc: Global,
    readings: &Readings,
    file: &[u8],
) -> Result<Vec<u8>, AllocError>
    ensures { IfOk result (λ lines. bare.AreBareIn file.now (bytes_of readings.now file.now) lines.items) }
{
    match readings.bytes_of(file)? {
        Some(text) => lines_of(alloc, file, text),
        None => Ok(Vec::new(alloc)),
    }
}
