ghost use Rattle.std.specs.Prelude.{◌≡◌};
ghost use Rattle.script_values.specs.Values as values;

use crate::datum::Datum;
use crate::load_reason::LoadReason;
use crate::text::Text;
use cube_fixed::{DECIMAL_POINT, Value, read_with};

/// Whether a byte is a space or a tab.
fn is_blank(byte: u8) -> bool
    ensures { result ≡ values.is_blank byte }
{
    byte == b' ' || byte == b'\t'
}

fn without_blanks(text: &[u8]) -> &[u8]
    ensures { result.now ≡ values.without_blanks text.now }
{
    let mut rest = text;
    'blank: while let [byte, behind @ ..] = rest {
        if !is_blank(*byte) {
            break;
        }
        rest = behind;
    }
    rest
}

/// Without the spaces and tabs at its end.
fn without_blanks_behind(text: &[u8]) -> &[u8]
    ensures { result.now ≡ values.without_blanks_behind text.now }
{
    let mut rest = text;
    'blank: while let [before @ .., byte] = rest {
        if !is_blank(*byte) {
            break;
        }
        rest = before;
    }
    rest
}

/// Without the spaces and tabs at its ends.
pub(crate) fn trimmed(text: &[u8]) -> &[u8]
    ensures { result.now ≡ values.trimmed text.now }
{
    without_blanks_behind(without_blanks(text))
}

/// The number that a text says to its last byte, with this decimal sign. An empty text is 0.
fn amount_said(decimal: u8, text: &[u8]) -> Result<Value, LoadReason>
    ensures { result ≡ values.amount_said decimal text.now }
{
    match text {
        [] => Ok(Value::ZERO),
        _ => match read_with(decimal, text) {
            Ok(millionths) => Ok(Value::Num(millionths)),
            Err(_) => Err(LoadReason::NotANumber),
        },
    }
}

/// The number that a text says. Spaces and tabs at its ends are passed over, and an empty text is 0.
pub(crate) fn amount_in(text: &[u8]) -> Result<Value, LoadReason>
    ensures { result ≡ values.amount_in text.now }
{
    column_amount(DECIMAL_POINT, text)
}

/// The same of a column, with this decimal sign.
pub(crate) fn column_amount(decimal: u8, text: &[u8]) -> Result<Value, LoadReason>
    ensures { result ≡ values.column_amount decimal text.now }
{
    amount_said(decimal, trimmed(text))
}

/// What is given, as a number.
pub fn as_amount(given: Result<Datum<'_>, LoadReason>) -> Result<Value, LoadReason>
    ensures { result ≡ values.amount given.entry }
{
    match given? {
        Datum::Number(value) => Ok(value),
        Datum::Text(text) => amount_in(text.as_slice()),
        Datum::Column(text, decimal) => column_amount(decimal, text.as_slice()),
        Datum::Truth(_) => Err(LoadReason::TypeMismatch),
    }
}

/// The number that is said by what is given, which is a text.
pub(crate) fn as_said(given: Result<Datum<'_>, LoadReason>) -> Result<Value, LoadReason>
    ensures { result ≡ values.taken values.as_said given.entry }
{
    match given? {
        Datum::Text(text) => amount_in(text.as_slice()),
        Datum::Column(text, decimal) => column_amount(decimal, text.as_slice()),
        Datum::Number(_) => Err(LoadReason::TypeMismatch),
        Datum::Truth(_) => Err(LoadReason::TypeMismatch),
    }
}

/// What is given, as a text.
pub fn as_text<'a>(given: Result<Datum<'a>, LoadReason>) -> Result<Text<'a>, LoadReason>
    ensures { result ≡ values.text given.entry }
{
    match given? {
        Datum::Text(text) => Ok(text),
        Datum::Column(text, _) => Ok(text),
        Datum::Number(_) => Err(LoadReason::TypeMismatch),
        Datum::Truth(_) => Err(LoadReason::TypeMismatch),
    }
}

/// What is given, as a truth.
pub fn as_truth(given: Result<Datum<'_>, LoadReason>) -> Result<bool, LoadReason>
    ensures { result ≡ values.truth given.entry }
{
    match given? {
        Datum::Truth(holds) => Ok(holds),
        Datum::Number(_) => Err(LoadReason::TypeMismatch),
        Datum::Text(_) => Err(LoadReason::TypeMismatch),
        Datum::Column(_, _) => Err(LoadReason::TypeMismatch),
    }
}
