ghost use Rattle.std.specs.Prelude.{◌≡◌, ◌^◌, ◌≤◌, pos};
ghost use Rattle.cube_fixed.specs.Places.{truncated, rounded_to, rounded_at, power_of, whole_part};
ghost use Rattle.cube_fixed.specs.Places.{decimals_of, decimals_for};

use crate::money::{Money, UNIT};
use crate::rounding::{MILLIONTHS_PER_UNIT, fitted, nearest_signed};
use crate::value::Value;

/// How many decimals a number has.
pub(crate) const DECIMALS: u32 = 6;

/// How many places before the point rounding goes at most: no number reaches the last of them.
const MAX_PLACES: i64 = 14;

/// The whole units of `a`, with its sign: `a` without its decimals.
#[tactic(auto, unfolding(crate::specs::Places::truncated))]
pub fn trunc(a: Value) -> Value
    ensures { result ≡ truncated a }
{
    match a {
        Value::Num(a) => {
            let millionths = a.millionths();
            let size = millionths.unsigned_abs() / UNIT * UNIT;
            fitted(i128::from(millionths.signum()) * i128::from(size))
        }
        Value::Over => Value::Over,
    }
}

/// The greatest whole number that is not above a number of units.
fn whole_part(a: Money) -> i64
    ensures { result ≡ whole_part a }
{
    a.millionths().div_euclid(UNIT as i64)
}

/// The power of ten, in millionths, that so many decimals end with.
fn power_of(decimals: i64) -> u32
    ensures value { result ≡ power_of decimals }
    ensures bound { result ≤ 20 }
{
    let most = i64::from(DECIMALS);
    (most - decimals.clamp(-MAX_PLACES, most)) as u32
}

/// Ten to this power.
fn ten_to(power: u32) -> i128
    requires { power ≤ 20 }
    ensures value { result ≡ pos (10 ^ power) }
    ensures bound { 10 ^ power ≤ 10 ^ 20 }
    ensures some { 1 ≤ 10 ^ power }
{
    10_u128.pow(power) as i128
}

/// The nearest multiple of this power of ten, in millionths, halves away from zero.
pub(crate) fn round_at(power: u32, a: Value) -> Value
    requires { power ≤ 20 }
    ensures { result ≡ rounded_at power a }
{
    match a {
        Value::Num(a) => {
            let step = ten_to(power);
            fitted(nearest_signed(i128::from(a.millionths()), step) * step)
        }
        Value::Over => Value::Over,
    }
}

/// `a` to `n` decimals, halves away from zero (TM1's `ROUNDP`); `Over` where `a` or `n` is. A negative `n` rounds
/// places before the point, and the decimals of `n` don't count.
#[tactic(auto, unfolding(crate::specs::Places::rounded_to))]
pub fn round_to(a: Value, n: Value) -> Value
    ensures { result ≡ rounded_to a n }
{
    match n {
        Value::Num(n) => round_at(power_of(whole_part(n)), a),
        Value::Over => Value::Over,
    }
}

/// How many decimals are written where `n` are asked for: its whole part, at least none and at most six.
pub(crate) fn decimals_for(n: Value) -> u32
    ensures value { result ≡ decimals_for n }
    ensures bound { result ≤ 6 }
{
    match n {
        Value::Num(n) => whole_part(n).clamp(0, i64::from(DECIMALS)) as u32,
        Value::Over => DECIMALS,
    }
}
