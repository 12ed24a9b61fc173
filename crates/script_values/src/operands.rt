ghost use Rattle.std.specs.Prelude.{◌≡◌, ◌&&◌, ◌||◌, not, IfOk};
ghost use Rattle.cube_fixed.specs.Text.{printed};
ghost use Rattle.dim_name.specs.Name.{is_same_name};
ghost use Rattle.rule_laws.specs.Operation.{function_of, operation_of, comparison_of};
ghost use Rattle.script_values.specs.declared.datum.Datum.TheVariants as data_of;
ghost use Rattle.script_values.specs.Values as values;

use crate::datum::Datum;
use crate::load_reason::LoadReason;
use crate::text::Text;
use crate::wanted::as_said;
use cube_fixed::{Value, print};
use dim_name::is_same_name;
use rule_laws::{Fun, Op, Rel};
use std::alloc::{AllocError, Global};

/// What two operands give as texts.
pub(crate) type TwoTexts<'a> = (Result<Text<'a>, LoadReason>, Result<Text<'a>, LoadReason>);

/// What two operands give as truths.
pub(crate) type TwoTruths = (Result<bool, LoadReason>, Result<bool, LoadReason>);

/// A number, as what an expression gives.
pub(crate) fn number<'a>(given: Result<Value, LoadReason>) -> Result<Datum<'a>, LoadReason>
    ensures { result ≡ values.done (λ number. data_of.Number number) given }
{
    Ok(Datum::Number(given?))
}

/// A truth, in the same way.
pub(crate) fn truth<'a>(given: Result<bool, LoadReason>) -> Result<Datum<'a>, LoadReason>
    ensures { result ≡ values.done (λ holds. data_of.Truth holds) given }
{
    Ok(Datum::Truth(given?))
}

pub(crate) fn function(function: Fun, given: Result<Value, LoadReason>) -> Result<Value, LoadReason>
    ensures value { result ≡ values.amount
        (values.done (λ value. data_of.Number (function_of function value)) given) }
    ensures datum { values.done (λ number. data_of.Number number) result
        ≡ values.done (λ value. data_of.Number (function_of function value)) given }
{
    Ok(function.apply(given?))
}

pub(crate) fn operation(
    op: Op,
    left: Result<Value, LoadReason>,
    right: Result<Value, LoadReason>,
) -> Result<Value, LoadReason>
    ensures value { result ≡ values.amount
        (values.one_and_other (λ a b. data_of.Number (operation_of op a b)) left right) }
    ensures datum { values.done (λ number. data_of.Number number) result
        ≡ values.one_and_other (λ a b. data_of.Number (operation_of op a b)) left right }
{
    Ok(op.apply(left?, right?))
}

pub(crate) fn comparison(
    rel: Rel,
    left: Result<Value, LoadReason>,
    right: Result<Value, LoadReason>,
) -> Result<bool, LoadReason>
    ensures value { result ≡ values.truth
        (values.one_and_other (λ a b. data_of.Truth (comparison_of rel a b)) left right) }
    ensures datum { values.done (λ holds. data_of.Truth holds) result
        ≡ values.one_and_other (λ a b. data_of.Truth (comparison_of rel a b)) left right }
{
    Ok(rel.holds(left?, right?))
}

pub(crate) fn number_in<'a>(given: Result<Datum<'a>, LoadReason>) -> Result<Datum<'a>, LoadReason>
    ensures { result ≡ values.done (λ value. data_of.Number value) (values.taken values.as_said given.entry) }
{
    Ok(Datum::Number(as_said(given)?))
}

pub(crate) fn text_of<'a>(
    alloc: Global,
    given: Result<Value, LoadReason>,
) -> Result<Result<Datum<'a>, LoadReason>, AllocError>
    ensures { IfOk result (λ answer. answer ≡ values.done (λ value. data_of.Text (printed value)) given) }
{
    match given {
        Ok(value) => {
            let mut bytes = Vec::new(alloc);
            print(alloc, value, &mut bytes)?;
            Ok(Ok(Datum::Text(Text::owned(bytes))))
        }
        Err(reason) => Ok(Err(reason)),
    }
}

/// The most bytes of a text that is put together.
pub(crate) const MAX_TEXT: usize = 1_048_576;

/// Two texts, one behind the other, unless that is too long for a text.
fn both<'a>(
    alloc: Global,
    left: &[u8],
    right: &[u8],
) -> Result<Result<Datum<'a>, LoadReason>, AllocError>
    ensures { IfOk result (λ answer. answer ≡ values.joined (left.now, right.now)) }
{
    let count = left.len() + right.len();
    if count > MAX_TEXT {
        return Ok(Err(LoadReason::TextLimit));
    }
    let mut bytes = Vec::with_capacity(alloc, count)?;
    bytes.extend_from_slice(left)?;
    bytes.extend_from_slice(right)?;
    Ok(Ok(Datum::Text(Text::owned(bytes))))
}

/// Two texts, or the first reason why one isn't given.
pub(crate) fn both_texts<'a>(given: TwoTexts<'a>) -> Result<(Text<'a>, Text<'a>), LoadReason>
    ensures { result ≡ values.one_and_other (λ a b. (a, b)) given.entry.0 given.entry.1 }
{
    let (left, right) = given;
    let left = left?;
    let right = right?;
    Ok((left, right))
}

pub(crate) fn joined<'a>(
    alloc: Global,
    given: TwoTexts<'a>,
) -> Result<Result<Datum<'a>, LoadReason>, AllocError>
    ensures { IfOk result (λ answer. answer ≡ values.taken values.joined
        (values.one_and_other (λ a b. (a, b)) given.entry.0 given.entry.1)) }
{
    match both_texts(given) {
        Ok((left, right)) => both(alloc, left.as_slice(), right.as_slice()),
        Err(reason) => Ok(Err(reason)),
    }
}

pub(crate) fn same<'a>(given: TwoTexts<'a>) -> Result<Datum<'a>, LoadReason>
    ensures { result ≡ values.one_and_other (λ a b. data_of.Truth (is_same_name a b)) given.entry.0 given.entry.1 }
{
    let (left, right) = both_texts(given)?;
    Ok(Datum::Truth(is_same_name(left.as_slice(), right.as_slice())))
}

pub(crate) fn other<'a>(given: TwoTexts<'a>) -> Result<Datum<'a>, LoadReason>
    ensures { result
        ≡ values.one_and_other (λ a b. data_of.Truth (not (is_same_name a b))) given.entry.0 given.entry.1 }
{
    let (left, right) = both_texts(given)?;
    Ok(Datum::Truth(!is_same_name(left.as_slice(), right.as_slice())))
}

pub(crate) fn both_hold<'a>(given: TwoTruths) -> Result<Datum<'a>, LoadReason>
    ensures { result ≡ values.one_and_other (λ a b. data_of.Truth (a && b)) given.0 given.1 }
{
    let (left, right) = given;
    let left = left?;
    let right = right?;
    Ok(Datum::Truth(left && right))
}

pub(crate) fn one_holds<'a>(given: TwoTruths) -> Result<Datum<'a>, LoadReason>
    ensures { result ≡ values.one_and_other (λ a b. data_of.Truth (a || b)) given.0 given.1 }
{
    let (left, right) = given;
    let left = left?;
    let right = right?;
    Ok(Datum::Truth(left || right))
}

pub(crate) fn opposite<'a>(given: Result<bool, LoadReason>) -> Result<Datum<'a>, LoadReason>
    ensures { result ≡ values.done (λ holds. data_of.Truth (not holds)) given }
{
    Ok(Datum::Truth(!given?))
}
