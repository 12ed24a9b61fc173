ghost use Rattle.std.specs.Prelude.{◌≡◌, ℤ, pos, ◌+◌, ◌*◌, ◌≤◌, ◌≤ℤ◌, min, position, IsTrue, IfSome};
ghost use Rattle.std.specs.List.{list_all};
ghost use Rattle.std.specs.Option.{SomeIff};
ghost use Rattle.std.specs.Char.{is_ascii_digit};
ghost use Rattle.std.specs.Str.Parse.{digits_value};
ghost use Rattle.cube_fixed.specs.declared.value.Value.TheVariants.{Num};
ghost use Rattle.cube_fixed.specs.Range.{unit, most_millionths, IsInRange};
ghost use Rattle.cube_fixed.specs.Text.{is_digits, is_decimal_sign, is_decimal, decimals_value, decimal_value};
ghost use Rattle.cube_fixed.specs.Text.{number_after_sign, number_with, number_of, printed, reading_of};

use crate::money::{MAX_MILLIONTHS, Money, UNIT};

/// Why a text gives no number.
#[derive(Clone, Copy, Debug, PartialEq, Eq)]
pub enum NumberFault {
    /// The text isn't an optional `-`, one or more digits, and optionally the decimal sign and one or more digits.
    NotANumber,
    /// The number, rounded to the millionth, is out of range.
    TooLarge,
}

/// The decimal sign of the program's own texts.
pub const DECIMAL_POINT: u8 = b'.';

/// One whole unit more than any number in range has.
const TOO_MANY_UNITS: u64 = 9_000_000_000_001;

/// The number that a text says: an optional `-`, one or more digits, and optionally `.` and one or more digits.
/// Decimals past the sixth are rounded, halves away from zero, before the range is tested.
///
/// What [`print`](crate::print) writes for a number reads back as that number.
pub fn read(text: &[u8]) -> Result<Money, NumberFault>
    ensures value { result ≡ reading_of (number_of text.now) }
    ensures round_trip { (m : ℤ) → IsInRange m → text.now ≡ printed (Num m) → result ≡ Ok m }
{
    read_with(DECIMAL_POINT, text)
}

/// The same with this byte for the decimal sign, as files write it.
#[tactic(auto, unfolding(crate::specs::Text::number_with))]
pub fn read_with(decimal: u8, text: &[u8]) -> Result<Money, NumberFault>
    ensures { result ≡ reading_of (number_with decimal text.now) }
{
    if text.starts_with(b"-") {
        read_after_sign(decimal, true, &text[1..])
    } else {
        read_after_sign(decimal, false, text)
    }
}

fn read_after_sign(decimal: u8, negative: bool, text: &[u8]) -> Result<Money, NumberFault>
    ensures { result ≡ reading_of (number_after_sign decimal negative text.now) }
{
    let Some(size) = decimal_size(decimal, text) else {
        return Err(NumberFault::NotANumber);
    };
    Money::of(if negative { -size } else { size }).ok_or(NumberFault::TooLarge)
}

/// The millionths that an unsigned text says, or `MAX_MILLIONTHS + 1` where they are more than any number has.
fn decimal_size(decimal: u8, text: &[u8]) -> Option<i64>
    ensures value { SomeIff result (IsTrue (is_decimal decimal text.now))
        (pos (min (decimal_value decimal text.now) (most_millionths + 1))) }
    ensures bound { IfSome result (λ size. size ≤ℤ pos (most_millionths + 1)) }
{
    match sign_of(decimal, text) {
        Some(at) => {
            let whole = &text[..at];
            let decimals = &text[at + 1..];
            if are_digits(whole) && are_digits(decimals) {
                Some(capped(units_of(whole) * UNIT + millionths_of(decimals)))
            } else {
                None
            }
        }
        None if are_digits(text) => Some(capped(units_of(text) * UNIT)),
        None => None,
    }
}

/// This count of millionths, or `MAX_MILLIONTHS + 1` where it is more.
fn capped(millionths: u64) -> i64
    ensures { result ≡ pos (min millionths (most_millionths + 1)) }
{
    millionths.min(MAX_MILLIONTHS + 1) as i64
}

/// Where the decimal sign is.
fn sign_of(decimal: u8, text: &[u8]) -> Option<usize>
    ensures { result ≡ position (is_decimal_sign decimal) text.now }
{
    text.iter().position(|c| *c == decimal)
}

fn all_digits(text: &[u8]) -> bool
    ensures { result ≡ list_all is_ascii_digit text.now }
{
    text.iter().all(|c| c.is_ascii_digit())
}

/// Whether the text is one or more digits.
fn are_digits(text: &[u8]) -> bool
    ensures { result ≡ is_digits text.now }
{
    !text.is_empty() && all_digits(text)
}

/// The number that the digits write, or `TOO_MANY_UNITS` where it is more.
fn units_of(digits: &[u8]) -> u64
    requires { IsTrue (list_all is_ascii_digit digits.now) }
    ensures value { result ≡ min (digits_value 10 digits.now) TOO_MANY_UNITS }
{
    let mut units = 0;
    for &digit in digits {
        units = (units * 10 + u64::from(digit - b'0')).min(TOO_MANY_UNITS);
    }
    units
}

/// The millionths that the decimals are, to the nearest; a half goes up.
fn millionths_of(decimals: &[u8]) -> u64
    requires { IsTrue (list_all is_ascii_digit decimals.now) }
    ensures value { result ≡ decimals_value decimals.now }
    ensures bound { result ≤ unit }
{
    let mut tenths = 0;
    let mut place = 10_000_000;
    for &digit in decimals {
        place /= 10;
        tenths += place * u64::from(digit - b'0');
    }
    (tenths + 5) / 10
}
