ghost use Rattle.std.specs.Prelude.{◌≡◌};
ghost use Rattle.rule_bind.specs.Functions.{operator_of};

use rule_laws::{Op, Rel};
use rule_tree::TreeOp;

/// What an operator means: a value of two values, a truth of two values or of two texts, or a truth of two truths.
#[derive(Clone, Copy)]
pub(crate) enum Operator {
    Operation(Op),
    Comparison(Rel),
    Texts(Rel),
    And,
    Or,
}

/// What an operator means.
pub(crate) fn operator_of(op: TreeOp) -> Operator
    ensures { result ≡ operator_of op }
{
    match op {
        TreeOp::Or => Operator::Or,
        TreeOp::And => Operator::And,
        TreeOp::Equal => Operator::Comparison(Rel::Equal),
        TreeOp::Unequal => Operator::Comparison(Rel::Unequal),
        TreeOp::Less => Operator::Comparison(Rel::Less),
        TreeOp::Greater => Operator::Comparison(Rel::Greater),
        TreeOp::AtMost => Operator::Comparison(Rel::AtMost),
        TreeOp::AtLeast => Operator::Comparison(Rel::AtLeast),
        TreeOp::Same => Operator::Texts(Rel::Equal),
        TreeOp::Other => Operator::Texts(Rel::Unequal),
        TreeOp::Add => Operator::Operation(Op::Add),
        TreeOp::Sub => Operator::Operation(Op::Sub),
        TreeOp::Mul => Operator::Operation(Op::Mul),
        TreeOp::Div => Operator::Operation(Op::Div),
        TreeOp::DivSafe => Operator::Operation(Op::DivSafe),
    }
}
