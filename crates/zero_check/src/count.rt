ghost use Rattle.std.specs.Prelude.{◌≡◌, ◌^◌, ◌<◌};
ghost use Rattle.rule_laws.specs.ZeroTest.{operands, operands_of_truth};

use rule_laws::{Formula, Truth};

/// How many operands a formula has: its numbers, references, tables, `STET`s and `ConsolidateChildren`s.
#[cycle(operands)]
pub fn operands(formula: &Formula) -> u32
    requires { operands formula.now < 2 ^ 32 }
    ensures { result ≡ operands formula.now }
{
    match formula {
        Formula::Number(_)
        | Formula::Stet
        | Formula::Children(_)
        | Formula::Ref(_)
        | Formula::Table(_, _) => 1,
        Formula::Continue => 0,
        Formula::Binary(_, left, right) => operands(left.get()) + operands(right.get()),
        Formula::Unary(_, inner) => operands(inner.get()),
        Formula::If(truth, left, right) => operands_of_truth(truth.get())
            + operands(left.get())
            + operands(right.get()),
    }
}

#[cycle(operands)]
pub fn operands_of_truth(truth: &Truth) -> u32
    requires { operands_of_truth truth.now < 2 ^ 32 }
    ensures { result ≡ operands_of_truth truth.now }
{
    match truth {
        Truth::Compare(_, left, right) => operands(left) + operands(right),
        Truth::And(left, right) | Truth::Or(left, right) => operands_of_truth(left.get())
            + operands_of_truth(right.get()),
        Truth::Not(inner) => operands_of_truth(inner.get()),
    }
}
