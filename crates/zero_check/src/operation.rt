ghost use Rattle.std.specs.Prelude.{◌≡◌, not};
ghost use Rattle.std.specs.Option.{option_map};
ghost use Rattle.rule_laws.specs.ZeroTest.{written_as, is_other_than_zero, is_divisor, known_value};
ghost use Rattle.rule_laws.specs.ZeroTest.{is_number, is_sure_number, is_decimals};
ghost use Rattle.rule_laws.specs.ZeroTest.{sure_comparison, sure_and, sure_or, zero_operation, zero_choice};

use cube_fixed::{Money, Value, sub};
use rule_laws::{Finding, Fun, Op, Rel};

/// Whether an operation gives 0, by whether its left side does and by what is found of its right side.
pub fn zero_operation(op: Op, left: bool, right: &Finding) -> bool
    ensures { result ≡ zero_operation op left right.now }
{
    match op {
        Op::Add | Op::Sub | Op::Max | Op::Min => left && right.is_zero,
        Op::Mul | Op::DivSafe => left || right.is_zero,
        Op::Div | Op::Mod => left && is_divisor(right),
        Op::RoundTo => left && is_decimals(right),
    }
}

/// Whether an `IF` gives 0, by the truth that its condition surely has and by whether each branch is 0.
pub fn zero_choice(sure: Option<bool>, left: bool, right: bool) -> bool
    ensures { result ≡ zero_choice sure left right }
{
    match sure {
        Some(true) => left,
        Some(false) => right,
        None => left && right,
    }
}

/// The value that a function of a formula is written as: minus of a number. The number is the one that the formula is
/// written as, without `-`.
pub fn written_as(fun: Fun, number: Option<Money>) -> Option<Value>
    ensures { result ≡ written_as fun number }
{
    match fun {
        Fun::Minus => match number {
            Some(number) => Some(sub(Value::ZERO, Value::Num(number))),
            None => None,
        },
        Fun::Abs | Fun::Sign | Fun::Int | Fun::Round | Fun::Trunc => None,
    }
}

fn is_other_than_zero(value: Value) -> bool
    ensures { result ≡ is_other_than_zero value }
{
    match value {
        Value::Num(k) => k.millionths() != 0,
        Value::Over => false,
    }
}

/// Whether a formula is written as a number other than 0.
pub fn is_divisor(formula: &Finding) -> bool
    ensures { result ≡ is_divisor formula.now }
{
    match formula.written {
        Some(value) => is_other_than_zero(value),
        None => false,
    }
}

fn is_number(value: Value) -> bool
    ensures { result ≡ is_number value }
{
    match value {
        Value::Num(_) => true,
        Value::Over => false,
    }
}

/// Whether a formula never gives `Over`: one that is written as a number, and a table.
pub fn is_sure_number(formula: &Finding) -> bool
    ensures { result ≡ is_sure_number formula.now }
{
    match formula.written {
        Some(value) => formula.is_table || is_number(value),
        None => formula.is_table,
    }
}

/// Whether a formula may say to how many decimals 0 is rounded, which gives 0.
pub fn is_decimals(formula: &Finding) -> bool
    ensures { result ≡ is_decimals formula.now }
{
    formula.is_zero || is_sure_number(formula)
}

/// The value that a formula is known to have: the one that it is written as, else 0 where the formula is 0.
pub fn known_value(formula: &Finding) -> Option<Value>
    ensures { result ≡ known_value formula.now }
{
    match formula.written {
        Some(value) => Some(value),
        None => if formula.is_zero {
            Some(Value::ZERO)
        } else {
            None
        },
    }
}

/// The truth that a comparison surely has, by what its sides are known to be.
pub fn sure_comparison(rel: Rel, left: Option<Value>, right: Option<Value>) -> Option<bool>
    ensures { result ≡ sure_comparison rel left right }
{
    if let Some(left) = left
        && let Some(right) = right
    {
        Some(rel.holds(left, right))
    } else {
        None
    }
}

pub fn sure_and(left: Option<bool>, right: Option<bool>) -> Option<bool>
    ensures { result ≡ sure_and left right }
{
    match left {
        Some(false) => Some(false),
        Some(true) => right,
        None => match right {
            Some(false) => Some(false),
            _ => None,
        },
    }
}

pub fn sure_or(left: Option<bool>, right: Option<bool>) -> Option<bool>
    ensures { result ≡ sure_or left right }
{
    match left {
        Some(true) => Some(true),
        Some(false) => right,
        None => match right {
            Some(true) => Some(true),
            _ => None,
        },
    }
}

pub fn sure_not(truth: Option<bool>) -> Option<bool>
    ensures { result ≡ option_map not truth }
{
    match truth {
        Some(truth) => Some(!truth),
        None => None,
    }
}
