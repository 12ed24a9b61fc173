ghost use Rattle.std.specs.Prelude.{◌≡◌, ◌≢◌, ◌+◌, ◌*◌, ◌/◌, ◌^◌, ◌<◌, ◌≤◌, pos, ◌*ℤ◌, unsigned_abs};
ghost use Rattle.cube_fixed.specs.Rounding.{nearest, nearest_ratio};
ghost use Rattle.cube_fixed.specs.Arithmetic.{fit};

use crate::money::Money;
use crate::value::Value;

/// One whole unit, as a count of millionths.
pub const MILLIONTHS_PER_UNIT: i128 = 1_000_000;

/// The number with this count of millionths, or `Over` outside the range.
pub fn fitted(millionths: i128) -> Value
    ensures { result ≡ fit millionths }
{
    match i64::try_from(millionths) {
        Ok(millionths) => Money::of(millionths).map_or(Value::Over, Value::Num),
        Err(_) => Value::Over,
    }
}

/// `a * b`, which 128 bits always hold.
pub fn exact_product(a: i64, b: i64) -> i128
    ensures value { result ≡ a *ℤ b }
    ensures size { unsigned_abs result ≡ unsigned_abs a * unsigned_abs b }
{
    i128::from(a) * i128::from(b)
}

/// The whole number nearest to `numerator / divisor`, a half going up.
fn nearest_whole(numerator: u128, divisor: u128) -> u128
    requires divisor { 0 < divisor }
    requires room { 2 * numerator + 2 * divisor < 2 ^ 127 }
    ensures value { result ≡ nearest numerator divisor }
    ensures bound { result < 2 ^ 127 }
{
    (2 * numerator + divisor) / (2 * divisor)
}

/// The whole number nearest to `numerator / divisor`, a half going away from zero.
pub fn nearest_signed(numerator: i128, divisor: i128) -> i128
    requires divisor { divisor ≢ pos 0 }
    requires room { 2 * unsigned_abs numerator + 2 * unsigned_abs divisor < 2 ^ 127 }
    ensures { result ≡ nearest_ratio numerator divisor }
{
    let size = nearest_whole(numerator.unsigned_abs(), divisor.unsigned_abs()) as i128;
    if (numerator < 0) == (divisor < 0) {
        size
    } else {
        -size
    }
}
