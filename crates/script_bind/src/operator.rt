ghost use Rattle.std.specs.Prelude.{◌≡◌};
ghost use Rattle.script_bind.specs.Binding as bound;

use rule_laws::{Op, Rel};
use script_tree::ScriptOp;

/// An operator, by what its operands are and what it gives.
#[derive(Clone, Copy)]
pub enum Operator {
    /// Of two numbers, a number.
    Amounts(Op),
    /// Of two numbers, a truth.
    Compare(Rel),
    /// Of two texts, a text.
    Join,
    /// Of two texts, a truth.
    SameText,
    /// Of two texts, a truth.
    OtherText,
    /// Of two truths, a truth.
    And,
    /// Of two truths, a truth.
    Or,
}

#[tactic(auto, unfolding(crate::specs::Binding::operator_of))]
pub(crate) fn operator_of(op: ScriptOp) -> Operator
    ensures { result ≡ bound.operator_of op }
{
    match op {
        ScriptOp::Or => Operator::Or,
        ScriptOp::And => Operator::And,
        ScriptOp::Equal => Operator::Compare(Rel::Equal),
        ScriptOp::Unequal => Operator::Compare(Rel::Unequal),
        ScriptOp::Less => Operator::Compare(Rel::Less),
        ScriptOp::Greater => Operator::Compare(Rel::Greater),
        ScriptOp::AtMost => Operator::Compare(Rel::AtMost),
        ScriptOp::AtLeast => Operator::Compare(Rel::AtLeast),
        ScriptOp::SameText => Operator::SameText,
        ScriptOp::OtherText => Operator::OtherText,
        ScriptOp::Add => Operator::Amounts(Op::Add),
        ScriptOp::Sub => Operator::Amounts(Op::Sub),
        ScriptOp::Join => Operator::Join,
        ScriptOp::Mul => Operator::Amounts(Op::Mul),
        ScriptOp::Div => Operator::Amounts(Op::Div),
        ScriptOp::DivSafe => Operator::Amounts(Op::DivSafe),
    }
}
