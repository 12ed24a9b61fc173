ghost use Rattle.std.specs.Prelude.{◌≡◌, ◌≢◌, pos, ◌-ℤ◌, ◌*ℤ◌};
ghost use Rattle.cube_fixed.specs.Division.{quotient_of, safe_quotient_of, floor_ratio, remainder_of};

use crate::money::Money;
use crate::rounding::{MILLIONTHS_PER_UNIT, exact_product, fitted, nearest_signed};
use crate::value::Value;

/// `a / b`, to the nearest millionth, halves away from zero. `a / 0` is `Over` for every `a`, 0 included.
#[tactic(auto, unfolding(crate::specs::Division::quotient_of))]
pub fn div(a: Value, b: Value) -> Value
    ensures { result ≡ quotient_of a b }
{
    if let Value::Num(a) = a
        && let Value::Num(b) = b
        && b.millionths() != 0
    {
        let exact = i128::from(a.millionths()) * MILLIONTHS_PER_UNIT;
        fitted(nearest_signed(exact, i128::from(b.millionths())))
    } else {
        Value::Over
    }
}

/// `a \ b`: as [`div`], but 0 where `a` or `b` is 0, whatever the other one is.
#[tactic(auto, unfolding(crate::specs::Division::safe_quotient_of))]
pub fn div_safe(a: Value, b: Value) -> Value
    ensures { result ≡ safe_quotient_of a b }
{
    if a == Value::ZERO || b == Value::ZERO {
        Value::ZERO
    } else {
        div(a, b)
    }
}

/// The greatest whole number that is not above `a / b`.
fn floor_ratio(a: Money, b: Money) -> i64
    requires { b ≢ pos 0 }
    ensures { result ≡ floor_ratio a b }
{
    let (a, b) = (a.millionths(), b.millionths());
    if 0 < b {
        a.div_euclid(b)
    } else {
        (-a).div_euclid(-b)
    }
}

/// What is left of `a` by so many times `b`.
fn rest_of(a: Money, b: Money) -> i128
    requires { b ≢ pos 0 }
    ensures { result ≡ a -ℤ b *ℤ floor_ratio a b }
{
    let whole = exact_product(b.millionths(), floor_ratio(a, b));
    i128::from(a.millionths()) - whole
}

/// `a - b * n`, where `n` is the greatest whole number that is not above `a / b` (TM1's `MOD`), exact. It has the sign
/// of `b`. By 0 it is `Over`.
#[tactic(auto, unfolding(crate::specs::Division::remainder_of))]
pub fn remainder(a: Value, b: Value) -> Value
    ensures { result ≡ remainder_of a b }
{
    if let Value::Num(a) = a
        && let Value::Num(b) = b
        && b.millionths() != 0
    {
        fitted(rest_of(a, b))
    } else {
        Value::Over
    }
}
