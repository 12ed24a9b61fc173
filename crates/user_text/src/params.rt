ghost use Rattle.std.specs.Prelude.{◌≡◌, IfOk};
ghost use Rattle.cube_lex.specs.Lexeme.{lexeme_of};
ghost use Rattle.grammar.specs.Cursor.{Reads};
ghost use Rattle.grammar.specs.Reading.{take_one};
ghost use Rattle.user_text.specs.Counting.{count};
ghost use Rattle.user_text.specs.Readers.Reading as reading;
ghost use Rattle.user_text.specs.UserText as user_text;
ghost use Rattle.user_text.specs.UserText.{new_variable};

use crate::cell::amount_at;
use crate::command::ParamText;
use crate::counted::Counted;
use crate::fault::TooMany;
use crate::load_params::LoadParams;
use cube_lex::{Kind, Token};
use grammar::{Cursor, Stop, is_variable, sign, sign_comes, text, text_comes, word, word_comes};
use lists::ListOf;
use std::alloc::{AllocError, Global};

/// Whether a parameter of this word, in capitals, may come behind these.
fn may_come(before: &LoadParams, variable: &[u8]) -> bool
    ensures { result ≡ user_text.may_come before.now variable.now }
{
    is_variable(variable) && !before.is_set(variable)
}

/// The parameter's word that a token is, in capitals, if one may come behind these.
fn variable_of(
    alloc: Global,
    token: &Token<'_>,
    before: &LoadParams,
) -> Result<Option<ListOf<u8>>, AllocError>
    ensures { IfOk result (λ variable. variable ≡ new_variable before.now (lexeme_of token.now)) }
{
    let variable = token.piece.to_ascii_uppercase(alloc)?;
    match token.kind {
        Kind::Word if may_come(before, variable.as_slice()) => Ok(Some(ListOf::new(variable))),
        _ => Ok(None),
    }
}

/// Takes a parameter's word, which is none of those before, and gives it in capitals.
fn new_variable(
    alloc: Global,
    cursor: &mut Cursor<'_, Counted>,
    before: &LoadParams,
) -> Result<ListOf<u8>, Stop<TooMany>>
    ensures { Reads (λ variable. variable) (take_one count (new_variable before.now)) cursor.old result cursor.new }
{
    let Some(token) = cursor.peek() else {
        return Err(cursor.unexpected());
    };
    match variable_of(alloc, &token, before)? {
        Some(variable) => {
            cursor.advance()?;
            Ok(variable)
        }
        None => Err(cursor.unexpected()),
    }
}

/// Reads what a parameter is set to.
#[tactic(auto, unfolding(crate::specs::Readers::Reading::read_value))]
fn value_at(alloc: Global, cursor: &mut Cursor<'_, Counted>) -> Result<ParamText, Stop<TooMany>>
    ensures { Reads (λ value. value) reading.read_value cursor.old result cursor.new }
{
    if text_comes(cursor) {
        let bytes = text(alloc, cursor)?;
        Ok(ParamText::Text(ListOf::new(bytes)))
    } else {
        let number = amount_at(cursor)?;
        Ok(ParamText::Number(number))
    }
}

/// Reads a parameter, whose word is none of those before.
#[tactic(auto, unfolding(crate::specs::Readers::Reading::read_param))]
fn param_at(
    alloc: Global,
    cursor: &mut Cursor<'_, Counted>,
    before: &LoadParams,
) -> Result<(ListOf<u8>, ParamText), Stop<TooMany>>
    ensures { Reads (λ param. param) (reading.read_param before.now) cursor.old result cursor.new }
{
    let variable = new_variable(alloc, cursor, before)?;
    sign(cursor, b"=")?;
    let value = value_at(alloc, cursor)?;
    Ok((variable, value))
}

/// Reads a further parameter, behind its `,`.
#[tactic(auto, unfolding(crate::specs::Readers::Reading::read_next_param))]
fn next_param_at(
    alloc: Global,
    cursor: &mut Cursor<'_, Counted>,
    before: &LoadParams,
) -> Result<(ListOf<u8>, ParamText), Stop<TooMany>>
    ensures { Reads (λ param. param) (reading.read_next_param before.now) cursor.old result cursor.new }
{
    sign(cursor, b",")?;
    param_at(alloc, cursor, before)
}

/// Reads the parameters behind the first.
#[tactic(auto, unfolding(crate::specs::Readers::Reading::read_further_params))]
fn further_params(
    alloc: Global,
    cursor: &mut Cursor<'_, Counted>,
    first: (ListOf<u8>, ParamText),
) -> Result<LoadParams, Stop<TooMany>>
    ensures { Reads (λ params. params) (reading.read_further_params first) cursor.old result cursor.new }
{
    let mut params = LoadParams::new(alloc);
    params.push(alloc, first)?;
    'param: for _ in 0..cursor.tokens.len() {
        if !sign_comes(cursor, b",") {
            return Ok(params);
        }
        let param = next_param_at(alloc, cursor, &params)?;
        params.push(alloc, param)?;
    }
    Ok(params)
}

/// Reads the parameters of a load, if there are any.
#[tactic(auto, unfolding(crate::specs::Readers::Reading::read_params))]
pub fn params_at(
    alloc: Global,
    cursor: &mut Cursor<'_, Counted>,
) -> Result<LoadParams, Stop<TooMany>>
    ensures { Reads (λ params. params) reading.read_params cursor.old result cursor.new }
{
    if word_comes(cursor, b"WITH") {
        word(cursor, b"WITH")?;
        let none = LoadParams::new(alloc);
        let first = param_at(alloc, cursor, &none)?;
        further_params(alloc, cursor, first)
    } else {
        Ok(LoadParams::new(alloc))
    }
}
