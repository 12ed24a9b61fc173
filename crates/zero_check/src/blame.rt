ghost use Rattle.std.specs.Prelude.{◌≡◌, ◌+◌, ◌^◌, ◌<◌, ◌≤◌};
ghost use Rattle.rule_laws.specs.ZeroTest.{first_blamed, blamed_side, blamed_branch};

use crate::operation::{is_decimals, is_divisor};
use rule_laws::{Finding, Op, TruthFinding};

/// Of two formulas that stand after so many operands: the operand of the first that isn't 0.
fn first_blamed(before: u32, left: &Finding, right: &Finding) -> u32
    requires room { before + left.now.operands + right.now.operands < 2 ^ 32 }
    requires left { left.now.blamed ≤ left.now.operands }
    requires right { right.now.blamed ≤ right.now.operands }
    ensures value { result ≡ first_blamed before left.now right.now }
    ensures within { result ≤ before + left.now.operands + right.now.operands }
{
    if left.is_zero {
        before + left.operands + right.blamed
    } else {
        before + left.blamed
    }
}

/// The operand that an operation is blamed on, counted from 1, by what is found of its sides.
pub fn blamed_side(op: Op, left: &Finding, right: &Finding) -> u32
    requires room { left.now.operands + right.now.operands < 2 ^ 32 }
    requires left { left.now.blamed ≤ left.now.operands }
    requires right { right.now.blamed ≤ right.now.operands }
    ensures value { result ≡ blamed_side op left.now right.now }
    ensures within { result ≤ left.now.operands + right.now.operands }
{
    match op {
        Op::Add | Op::Sub | Op::Max | Op::Min => first_blamed(0, left, right),
        Op::Mul | Op::DivSafe => left.blamed,
        Op::Div | Op::Mod if is_divisor(right) => left.blamed,
        Op::Div | Op::Mod => left.operands + u32::min(1, right.operands),
        Op::RoundTo if is_decimals(right) => left.blamed,
        Op::RoundTo => left.operands + right.blamed,
    }
}

/// The operand that an `IF` is blamed on, counted from 1, by what is found of its parts.
pub fn blamed_branch(truth: &TruthFinding, left: &Finding, right: &Finding) -> u32
    requires room { truth.now.operands + left.now.operands + right.now.operands < 2 ^ 32 }
    requires left { left.now.blamed ≤ left.now.operands }
    requires right { right.now.blamed ≤ right.now.operands }
    ensures value { result ≡ blamed_branch truth.now left.now right.now }
    ensures within { result ≤ truth.now.operands + left.now.operands + right.now.operands }
{
    match truth.sure {
        Some(true) => truth.operands + left.blamed,
        Some(false) => truth.operands + left.operands + right.blamed,
        None => first_blamed(truth.operands, left, right),
    }
}
