ghost use Rattle.std.specs.Prelude.{◌≡◌, IfOk};
ghost use Rattle.cube_lex.specs.Lexeme.{lexeme_of};
ghost use Rattle.grammar.specs.Cursor.{Reads};
ghost use Rattle.grammar.specs.Reading.{take_one};
ghost use Rattle.script_tree.specs.Counting.{count};
ghost use Rattle.script_tree.specs.Expression as expression;
ghost use Rattle.script_tree.specs.Statement as statement;

use cube_lex::{Kind, Token};
use grammar::{Cursor, Stop, is_statement_word, is_variable, is_word};
use lists::ListOf;
use script_tree::{Counted, Excess, Line, Section};
use std::alloc::{AllocError, Global};

/// Takes a word that is no statement word, and gives it in capitals.
pub fn expression_word(
    alloc: Global,
    cursor: &mut Cursor<'_, Counted<'_>>,
) -> Result<ListOf<u8>, Stop<Excess>>
    ensures { Reads (λ word. word) (take_one count expression.expression_word) cursor.old result cursor.new }
{
    let Some(token) = cursor.peek() else {
        return Err(cursor.unexpected());
    };
    match token.kind {
        Kind::Word => {
            let word = token.piece.to_ascii_uppercase(alloc)?;
            if is_statement_word(&word) {
                Err(cursor.unexpected())
            } else {
                cursor.advance()?;
                Ok(ListOf::new(word))
            }
        }
        _ => Err(cursor.unexpected()),
    }
}

/// The variable's word that a token is, in capitals, if it may name one.
fn variable_of(alloc: Global, token: &Token<'_>) -> Result<Option<ListOf<u8>>, AllocError>
    ensures { IfOk result (λ variable. variable ≡ statement.variable (lexeme_of token.now)) }
{
    let variable = token.piece.to_ascii_uppercase(alloc)?;
    match token.kind {
        Kind::Word if is_variable(&variable) => Ok(Some(ListOf::new(variable))),
        _ => Ok(None),
    }
}

/// Takes a word that may name a variable, and gives it in capitals.
pub fn variable(
    alloc: Global,
    cursor: &mut Cursor<'_, Counted<'_>>,
) -> Result<ListOf<u8>, Stop<Excess>>
    ensures { Reads (λ variable. variable) (take_one count statement.variable) cursor.old result cursor.new }
{
    let Some(token) = cursor.peek() else {
        return Err(cursor.unexpected());
    };
    match variable_of(alloc, &token)? {
        Some(variable) => {
            cursor.advance()?;
            Ok(variable)
        }
        None => Err(cursor.unexpected()),
    }
}

/// Whether `ITEMSKIP` stands in a section.
fn may_skip(section: Section) -> bool
    ensures { result ≡ statement.may_skip section }
{
    match section {
        Section::Prolog => false,
        Section::Body => true,
        Section::Epilog => false,
    }
}

/// Whether `PROCESSBREAK` stands in a section.
fn may_break(section: Section) -> bool
    ensures { result ≡ statement.may_break section }
{
    match section {
        Section::Prolog => true,
        Section::Body => true,
        Section::Epilog => false,
    }
}

/// The statement of one word that a token is, if it is one and stands in the section.
fn leap_of(section: Section, token: &Token<'_>) -> Option<Line>
    ensures { result ≡ statement.leap section (lexeme_of token.now) }
{
    if may_skip(section) && is_word(token, b"ITEMSKIP") {
        Some(Line::Skip)
    } else if may_break(section) && is_word(token, b"PROCESSBREAK") {
        Some(Line::Break)
    } else if is_word(token, b"PROCESSERROR") {
        Some(Line::Error)
    } else {
        None
    }
}

/// Takes the word of a statement of one word.
pub fn leap(cursor: &mut Cursor<'_, Counted<'_>>, section: Section) -> Result<Line, Stop<Excess>>
    ensures { Reads (λ line. line) (take_one count (statement.leap section)) cursor.old result cursor.new }
{
    let Some(token) = cursor.peek() else {
        return Err(cursor.unexpected());
    };
    match leap_of(section, &token) {
        Some(line) => {
            cursor.advance()?;
            Ok(line)
        }
        None => Err(cursor.unexpected()),
    }
}
