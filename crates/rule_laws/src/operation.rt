use cube_fixed::{
    Value, abs, add, compare, div, div_safe, floor, max, min, mul, remainder, round, round_to,
    sign, sub, trunc,
};
use std::cmp::Ordering;

/// An operation on two values.
#[derive(Clone, Copy, PartialEq, Eq)]
pub enum Op {
    Add,
    Sub,
    Mul,
    /// `\`, which is 0 where the divisor is 0.
    DivSafe,
    /// `/`, which is out of range where the divisor is 0.
    Div,
    Max,
    Min,
    /// What is left by a division (`MOD` of TM1 Rules); out of range where the divisor is 0.
    Mod,
    /// The left value, rounded to as many decimals as the right one says (`ROUNDP` of TM1 Rules).
    RoundTo,
}

impl Op {
    ghost use Rattle.std.specs.Prelude.{◌≡◌};
    ghost use Rattle.rule_laws.specs.Operation.{operation_of};

    /// What an operation gives.
    pub fn apply(self, left: Value, right: Value) -> Value
        ensures { result ≡ operation_of self left right }
    {
        match self {
            Op::Add => add(left, right),
            Op::Sub => sub(left, right),
            Op::Mul => mul(left, right),
            Op::DivSafe => div_safe(left, right),
            Op::Div => div(left, right),
            Op::Max => max(left, right),
            Op::Min => min(left, right),
            Op::Mod => remainder(left, right),
            Op::RoundTo => round_to(left, right),
        }
    }
}

/// A function of one value.
#[derive(Clone, Copy, PartialEq, Eq)]
pub enum Fun {
    Minus,
    Abs,
    Sign,
    /// The greatest whole number that is not above the value.
    Int,
    Round,
    /// The value without its decimals.
    Trunc,
}

impl Fun {
    ghost use Rattle.std.specs.Prelude.{◌≡◌};
    ghost use Rattle.rule_laws.specs.Operation.{function_of};

    /// What a function gives.
    pub fn apply(self, value: Value) -> Value
        ensures { result ≡ function_of self value }
    {
        match self {
            Fun::Minus => sub(Value::ZERO, value),
            Fun::Abs => abs(value),
            Fun::Sign => sign(value),
            Fun::Int => floor(value),
            Fun::Round => round(value),
            Fun::Trunc => trunc(value),
        }
    }
}

/// A comparison of two values. A value out of range equals itself, and is greater than every number.
#[derive(Clone, Copy, PartialEq, Eq)]
pub enum Rel {
    Equal,
    Unequal,
    Less,
    Greater,
    AtMost,
    AtLeast,
}

impl Rel {
    ghost use Rattle.std.specs.Prelude.{◌≡◌};
    ghost use Rattle.rule_laws.specs.Operation.{comparison_of};

    /// Whether a comparison holds.
    pub fn holds(self, left: Value, right: Value) -> bool
        ensures { result ≡ comparison_of self left right }
    {
        let order = compare(left, right);
        match self {
            Rel::Equal => order == Ordering::Equal,
            Rel::Unequal => order != Ordering::Equal,
            Rel::Less => order == Ordering::Less,
            Rel::Greater => order == Ordering::Greater,
            Rel::AtMost => order != Ordering::Greater,
            Rel::AtLeast => order != Ordering::Less,
        }
    }
}
