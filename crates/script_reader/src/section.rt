ghost use Rattle.std.specs.Prelude.{◌≡◌, IfOk};
ghost use Rattle.grammar.specs.Cursor.{Reads};
ghost use Rattle.script_reader.specs.Readers.TextReading as reading;

use crate::within::whole_statement;
use expression_grammar::pair_comes;
use grammar::{Cursor, Stop, any_word_comes, sign, word, word_comes};
use script_tree::{Block, Counted, Excess, Line, Script, Section};
use sqlite_items::Items;
use std::alloc::{AllocError, Global};

/// A piece of a script, in the order of the text.
#[derive(Drop)]
pub enum Piece {
    /// The word and `:` that begin a section.
    Heading(Section),
    /// A statement.
    Statement(Line),
}

/// The section behind a piece.
fn behind(section: Option<Section>, piece: &Piece) -> Option<Section>
    ensures { result ≡ reading.behind section piece.now }
{
    match piece {
        Piece::Heading(next) => Some(*next),
        Piece::Statement(_) => section,
    }
}

/// Takes the word and `:` that begin a section.
#[tactic(auto, unfolding(crate::specs::Readers::TextReading::read_mark))]
fn mark_at(cursor: &mut Cursor<'_, Counted<'_>>, mark: &[u8]) -> Result<(), Stop<Excess>>
    ensures { Reads (λ _. tt) (reading.read_mark mark.now) cursor.old result cursor.new }
{
    word(cursor, mark)?;
    sign(cursor, b":")
}

/// Reads the word and `:` that begin a section.
#[tactic(auto, unfolding(crate::specs::Readers::TextReading::read_heading))]
fn heading_at(
    cursor: &mut Cursor<'_, Counted<'_>>,
    mark: &[u8],
    section: Section,
) -> Result<Piece, Stop<Excess>>
    ensures { Reads (λ piece. piece) (reading.read_heading mark.now section) cursor.old result cursor.new }
{
    mark_at(cursor, mark)?;
    Ok(Piece::Heading(section))
}

/// Reads a statement of a section.
#[tactic(auto, unfolding(crate::specs::Readers::TextReading::read_line))]
fn line_at(
    alloc: Global,
    cursor: &mut Cursor<'_, Counted<'_>>,
    section: Section,
) -> Result<Piece, Stop<Excess>>
    ensures { Reads (λ piece. piece) (reading.read_line section) cursor.old result cursor.new }
{
    let line = whole_statement(alloc, cursor, section)?;
    Ok(Piece::Statement(line))
}

/// Whether a section begins. Its word may also name a variable, but then `=` follows.
fn heading_comes(cursor: &Cursor<'_, Counted<'_>>, mark: &[u8]) -> bool
    ensures { result ≡ reading.starts_heading mark.now cursor.now.tokens }
{
    pair_comes(cursor, mark, b":")
}

/// Reads the first section's beginning.
#[tactic(auto, unfolding(crate::specs::Readers::TextReading::read_first))]
fn first_at(cursor: &mut Cursor<'_, Counted<'_>>) -> Result<Piece, Stop<Excess>>
    ensures { Reads (λ piece. piece) reading.read_first cursor.old result cursor.new }
{
    if word_comes(cursor, b"PROLOG") {
        heading_at(cursor, b"PROLOG", Section::Prolog)
    } else if word_comes(cursor, b"DATA") {
        heading_at(cursor, b"DATA", Section::Body)
    } else {
        heading_at(cursor, b"EPILOG", Section::Epilog)
    }
}

/// Reads a piece in the Prolog.
#[tactic(auto, unfolding(crate::specs::Readers::TextReading::read_in_prolog))]
fn in_prolog(alloc: Global, cursor: &mut Cursor<'_, Counted<'_>>) -> Result<Piece, Stop<Excess>>
    ensures { Reads (λ piece. piece) reading.read_in_prolog cursor.old result cursor.new }
{
    if heading_comes(cursor, b"DATA") {
        heading_at(cursor, b"DATA", Section::Body)
    } else if heading_comes(cursor, b"EPILOG") {
        heading_at(cursor, b"EPILOG", Section::Epilog)
    } else {
        line_at(alloc, cursor, Section::Prolog)
    }
}

/// Reads a piece in Data.
#[tactic(auto, unfolding(crate::specs::Readers::TextReading::read_in_body))]
fn in_body(alloc: Global, cursor: &mut Cursor<'_, Counted<'_>>) -> Result<Piece, Stop<Excess>>
    ensures { Reads (λ piece. piece) reading.read_in_body cursor.old result cursor.new }
{
    if heading_comes(cursor, b"EPILOG") {
        heading_at(cursor, b"EPILOG", Section::Epilog)
    } else {
        line_at(alloc, cursor, Section::Body)
    }
}

/// Reads a piece, as they may come in a section.
fn piece_at(
    alloc: Global,
    cursor: &mut Cursor<'_, Counted<'_>>,
    section: Option<Section>,
) -> Result<Piece, Stop<Excess>>
    ensures { Reads (λ piece. piece) (reading.read_piece section) cursor.old result cursor.new }
{
    match section {
        None => first_at(cursor),
        Some(Section::Prolog) => in_prolog(alloc, cursor),
        Some(Section::Body) => in_body(alloc, cursor),
        Some(Section::Epilog) => line_at(alloc, cursor, Section::Epilog),
    }
}

/// Reads pieces as long as they come.
#[tactic(auto, unfolding(crate::specs::Readers::TextReading::read_pieces))]
fn pieces_at(
    alloc: Global,
    cursor: &mut Cursor<'_, Counted<'_>>,
) -> Result<Vec<Piece>, Stop<Excess>>
    ensures { Reads (λ pieces. pieces.items) reading.read_pieces cursor.old result cursor.new }
{
    let mut pieces = Vec::new(alloc);
    let mut section = None;
    let turns = cursor.tokens.len();
    'piece: for _ in 0..turns {
        if !any_word_comes(cursor) {
            return Ok(pieces);
        }
        let piece = piece_at(alloc, cursor, section)?;
        section = behind(section, &piece);
        pieces.push(piece)?;
    }
    Ok(pieces)
}

/// The sections that the pieces of a text make.
fn gathered(alloc: Global, pieces: Vec<Piece>) -> Result<Script, AllocError>
    ensures { IfOk result (λ script. script ≡ reading.gathered pieces.items) }
{
    let mut prolog = Vec::new(alloc);
    let mut body = Vec::new(alloc);
    let mut epilog = Vec::new(alloc);
    let mut section = None;
    for piece in pieces {
        match piece {
            Piece::Heading(next) => section = Some(next),
            Piece::Statement(line) => match section {
                None => (),
                Some(Section::Prolog) => prolog.push(line)?,
                Some(Section::Body) => body.push(line)?,
                Some(Section::Epilog) => epilog.push(line)?,
            },
        }
    }
    Ok(Script {
        prolog: Block {
            lines: Items::from_vec(prolog),
        },
        body: Block {
            lines: Items::from_vec(body),
        },
        epilog: Block {
            lines: Items::from_vec(epilog),
        },
    })
}

/// Reads a whole script.
#[tactic(auto, unfolding(crate::specs::Readers::TextReading::read_script))]
pub fn script_at(
    alloc: Global,
    cursor: &mut Cursor<'_, Counted<'_>>,
) -> Result<Script, Stop<Excess>>
    ensures { Reads (λ script. script) reading.read_script cursor.old result cursor.new }
{
    let pieces = pieces_at(alloc, cursor)?;
    let script = gathered(alloc, pieces)?;
    Ok(script)
}
