ghost use Rattle.std.specs.Prelude.{◌≡◌, ◌^◌, ◌<◌, length};
ghost use Rattle.rule_laws.specs.Meaning.{precedents, truth_precedents};

use rule_laws::{Formula, Truth};

/// How many references a formula has; a `ConsolidateChildren` counts as one.
#[cycle(references)]
pub fn references(formula: &Formula) -> u32
    requires { length (precedents formula.now) < 2 ^ 32 }
    ensures { result ≡ length (precedents formula.now) }
{
    match formula {
        Formula::Number(_) | Formula::Stet | Formula::Continue | Formula::Table(_, _) => 0,
        Formula::Children(_) | Formula::Ref(_) => 1,
        Formula::Binary(_, left, right) => references(left.get()) + references(right.get()),
        Formula::Unary(_, inner) => references(inner.get()),
        Formula::If(truth, left, right) => references_of_truth(truth.get())
            + references(left.get())
            + references(right.get()),
    }
}

#[cycle(references)]
fn references_of_truth(truth: &Truth) -> u32
    requires { length (truth_precedents truth.now) < 2 ^ 32 }
    ensures { result ≡ length (truth_precedents truth.now) }
{
    match truth {
        Truth::Compare(_, left, right) => references(left) + references(right),
        Truth::And(left, right) | Truth::Or(left, right) => references_of_truth(left.get())
            + references_of_truth(right.get()),
        Truth::Not(inner) => references_of_truth(inner.get()),
    }
}
