ghost use Rattle.std.specs.Prelude.{◌≡◌};
ghost use Rattle.cube_fixed.specs.Arithmetic.{sum_of, difference_of, product_of, greater_of, lesser_of, rounded};
ghost use Rattle.cube_fixed.specs.Arithmetic.{floor_of, size_of, sign_of, order_of};

use crate::rounding::{MILLIONTHS_PER_UNIT, exact_product, fitted, nearest_signed};
use crate::value::Value;
use std::cmp::Ordering;

/// `a + b`, exact.
#[tactic(auto, unfolding(crate::specs::Arithmetic::sum_of))]
pub fn add(a: Value, b: Value) -> Value
    ensures { result ≡ sum_of a b }
{
    if let Value::Num(a) = a
        && let Value::Num(b) = b
    {
        fitted(i128::from(a.millionths()) + i128::from(b.millionths()))
    } else {
        Value::Over
    }
}

/// `a - b`, exact. `-x` is `0 - x`.
#[tactic(auto, unfolding(crate::specs::Arithmetic::difference_of))]
pub fn sub(a: Value, b: Value) -> Value
    ensures { result ≡ difference_of a b }
{
    if let Value::Num(a) = a
        && let Value::Num(b) = b
    {
        fitted(i128::from(a.millionths()) - i128::from(b.millionths()))
    } else {
        Value::Over
    }
}

/// `a * b`, to the nearest millionth, halves away from zero. 0 times anything is 0, also 0 times `Over`.
#[tactic(auto, unfolding(crate::specs::Arithmetic::product_of))]
pub fn mul(a: Value, b: Value) -> Value
    ensures { result ≡ product_of a b }
{
    if let Value::Num(a) = a
        && let Value::Num(b) = b
    {
        let exact = exact_product(a.millionths(), b.millionths());
        fitted(nearest_signed(exact, MILLIONTHS_PER_UNIT))
    } else if a == Value::ZERO || b == Value::ZERO {
        Value::ZERO
    } else {
        Value::Over
    }
}

/// The larger of the two; `Over` where one of them is.
#[tactic(auto, unfolding(crate::specs::Arithmetic::greater_of))]
pub fn max(a: Value, b: Value) -> Value
    ensures { result ≡ greater_of a b }
{
    if let Value::Num(a) = a
        && let Value::Num(b) = b
    {
        let below = a.millionths() < b.millionths();
        Value::Num(if below { b } else { a })
    } else {
        Value::Over
    }
}

/// The smaller of the two; `Over` where one of them is.
#[tactic(auto, unfolding(crate::specs::Arithmetic::lesser_of))]
pub fn min(a: Value, b: Value) -> Value
    ensures { result ≡ lesser_of a b }
{
    if let Value::Num(a) = a
        && let Value::Num(b) = b
    {
        let above = b.millionths() < a.millionths();
        Value::Num(if above { b } else { a })
    } else {
        Value::Over
    }
}

/// The nearest whole unit, halves away from zero.
#[tactic(auto, unfolding(crate::specs::Arithmetic::rounded))]
pub fn round(a: Value) -> Value
    ensures { result ≡ rounded a }
{
    match a {
        Value::Num(a) => {
            let units = nearest_signed(i128::from(a.millionths()), MILLIONTHS_PER_UNIT);
            fitted(units * MILLIONTHS_PER_UNIT)
        }
        Value::Over => Value::Over,
    }
}

/// The greatest whole unit that is not above `a` (TM1's `INT`).
#[tactic(auto, unfolding(crate::specs::Arithmetic::floor_of))]
pub fn floor(a: Value) -> Value
    ensures { result ≡ floor_of a }
{
    match a {
        Value::Num(a) => {
            let units = i128::from(a.millionths()).div_euclid(MILLIONTHS_PER_UNIT);
            fitted(units * MILLIONTHS_PER_UNIT)
        }
        Value::Over => Value::Over,
    }
}

/// `a` without its sign.
#[tactic(auto, unfolding(crate::specs::Arithmetic::size_of))]
pub fn abs(a: Value) -> Value
    ensures { result ≡ size_of a }
{
    match a {
        Value::Num(a) => fitted(i128::from(a.millionths()).abs()),
        Value::Over => Value::Over,
    }
}

/// -1, 0 or 1 units, with the sign of `a`.
#[tactic(auto, unfolding(crate::specs::Arithmetic::sign_of))]
pub fn sign(a: Value) -> Value
    ensures { result ≡ sign_of a }
{
    match a {
        Value::Num(a) => fitted(i128::from(a.millionths()).signum() * MILLIONTHS_PER_UNIT),
        Value::Over => Value::Over,
    }
}

/// How `a` stands to `b`. `Over` equals itself, and is greater than every number.
#[tactic(auto, unfolding(crate::specs::Arithmetic::order_of))]
pub fn compare(a: Value, b: Value) -> Ordering
    ensures { result ≡ order_of a b }
{
    match a {
        Value::Num(a) => match b {
            Value::Num(b) => a.millionths().cmp(&b.millionths()),
            Value::Over => Ordering::Less,
        },
        Value::Over => match b {
            Value::Num(_) => Ordering::Greater,
            Value::Over => Ordering::Equal,
        },
    }
}
