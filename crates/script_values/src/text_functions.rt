ghost use Rattle.std.specs.Prelude.{◌≡◌, IfOk};
ghost use Rattle.script_values.specs.Characters.{units_of, character_count, place_in, cut_out};
ghost use Rattle.script_values.specs.declared.datum.Datum.TheVariants as data_of;
ghost use Rattle.script_values.specs.Values as values;

use crate::characters;
use crate::datum::Datum;
use crate::load_reason::LoadReason;
use crate::operands::{TwoTexts, both_texts};
use crate::text::Text;
use cube_fixed::Value;
use script_bound::TextFun;
use std::alloc::{AllocError, Global};

/// What a function of one text gives.
fn altered_text<'a>(
    alloc: Global,
    function: TextFun,
    text: Text<'a>,
) -> Result<Text<'a>, AllocError>
    ensures { IfOk result (λ given. given ≡ values.altered function text.entry) }
{
    match function {
        TextFun::Trim => text.trimmed(alloc),
        TextFun::Upper => Ok(Text::owned(text.as_slice().to_ascii_uppercase(alloc)?)),
        TextFun::Lower => Ok(Text::owned(text.as_slice().to_ascii_lowercase(alloc)?)),
    }
}

pub(crate) fn altered<'a>(
    alloc: Global,
    function: TextFun,
    given: Result<Text<'a>, LoadReason>,
) -> Result<Result<Datum<'a>, LoadReason>, AllocError>
    ensures { IfOk result (λ answer. answer
        ≡ values.done (λ bytes. data_of.Text (values.altered function bytes)) given.entry) }
{
    match given {
        Ok(text) => {
            let text = altered_text(alloc, function, text)?;
            Ok(Ok(Datum::Text(text)))
        }
        Err(reason) => Ok(Err(reason)),
    }
}

pub(crate) fn count_of<'a>(given: Result<Text<'a>, LoadReason>) -> Result<Datum<'a>, LoadReason>
    ensures { result ≡ values.done (λ bytes. data_of.Number (units_of (character_count bytes))) given.entry }
{
    let text = given?;
    let count = characters::character_count(text.as_slice());
    Ok(Datum::Number(characters::units(count)))
}

pub(crate) fn place_of<'a>(given: TwoTexts<'a>) -> Result<Datum<'a>, LoadReason>
    ensures { result ≡ values.one_and_other (λ sought bytes. data_of.Number (units_of (place_in sought bytes)))
        given.entry.0 given.entry.1 }
{
    let (part, text) = both_texts(given)?;
    let place = characters::place_in(part.as_slice(), text.as_slice());
    Ok(Datum::Number(characters::units(place)))
}

/// What `cut` is given, or the first reason why it isn't.
fn cut_operands<'a>(
    given: Result<Text<'a>, LoadReason>,
    start: Result<Value, LoadReason>,
    count: Result<Value, LoadReason>,
) -> Result<(Text<'a>, Value, Value), LoadReason>
    ensures { result ≡ values.one_and_two (λ bytes first many. (bytes, first, many)) given.entry start count }
{
    let text = given?;
    let start = start?;
    let count = count?;
    Ok((text, start, count))
}

pub(crate) fn cut<'a>(
    alloc: Global,
    given: Result<Text<'a>, LoadReason>,
    start: Result<Value, LoadReason>,
    count: Result<Value, LoadReason>,
) -> Result<Result<Datum<'a>, LoadReason>, AllocError>
    ensures { IfOk result (λ answer. answer
        ≡ values.one_and_two (λ bytes first many. data_of.Text (cut_out bytes first many)) given.entry start count) }
{
    match cut_operands(given, start, count) {
        Ok((text, start, count)) => {
            let bytes = characters::cut_out(alloc, text.as_slice(), &start, &count)?;
            Ok(Ok(Datum::Text(Text::owned(bytes))))
        }
        Err(reason) => Ok(Err(reason)),
    }
}
