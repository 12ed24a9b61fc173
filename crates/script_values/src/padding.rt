ghost use Rattle.std.specs.Prelude.{◌≡◌, IfOk};
ghost use Rattle.script_values.specs.Padding.{width_in, padded};
ghost use Rattle.script_values.specs.Values as values;

use crate::datum::Datum;
use crate::load_reason::LoadReason;
use crate::operands::MAX_TEXT;
use crate::text::Text;
use cube_fixed::{Money, UNIT, Value, print_fixed};
use std::alloc::{AllocError, Global};

/// The width that a number says: its whole part, at least none.
#[tactic(auto, unfolding(crate::specs::Padding::width_in))]
fn width_in(width: Money) -> usize
    ensures { result ≡ width_in width }
{
    width.millionths().div_euclid(UNIT as i64).max(0) as usize
}

/// A text with spaces in front up to a width.
fn padded(alloc: Global, width: usize, mut text: Vec<u8>) -> Result<Vec<u8>, AllocError>
    ensures { IfOk result (λ wide. wide.items ≡ padded width text.items) }
{
    let mut wide = vec![in alloc; b' '; width.saturating_sub(text.len())]?;
    wide.append(&mut text)?;
    Ok(wide)
}

/// A number as a text, of at least this width and with so many decimals, unless the width is too great for a text.
fn fitted<'a>(
    alloc: Global,
    value: Value,
    width: Value,
    decimals: Value,
) -> Result<Result<Datum<'a>, LoadReason>, AllocError>
    ensures { IfOk result (λ answer. answer ≡ values.fitted value width decimals) }
{
    let Value::Num(width) = width else {
        return Ok(Err(LoadReason::TextLimit));
    };
    let width = width_in(width);
    if width > MAX_TEXT {
        return Ok(Err(LoadReason::TextLimit));
    }
    let mut text = Vec::new(alloc);
    print_fixed(alloc, value, decimals, &mut text)?;
    let text = padded(alloc, width, text)?;
    Ok(Ok(Datum::Text(Text::owned(text))))
}

/// Three numbers, or the first reason why one isn't there.
fn three(
    value: Result<Value, LoadReason>,
    width: Result<Value, LoadReason>,
    decimals: Result<Value, LoadReason>,
) -> Result<(Value, Value, Value), LoadReason>
    ensures { result ≡ values.one_and_two (λ a b c. (a, b, c)) value width decimals }
{
    let value = value?;
    let width = width?;
    let decimals = decimals?;
    Ok((value, width, decimals))
}

pub(crate) fn written<'a>(
    alloc: Global,
    value: Result<Value, LoadReason>,
    width: Result<Value, LoadReason>,
    decimals: Result<Value, LoadReason>,
) -> Result<Result<Datum<'a>, LoadReason>, AllocError>
    ensures { IfOk result (λ answer. answer
        ≡ values.taken (λ given. given) (values.one_and_two values.fitted value width decimals)) }
{
    match three(value, width, decimals) {
        Ok((value, width, decimals)) => fitted(alloc, value, width, decimals),
        Err(reason) => Ok(Err(reason)),
    }
}
