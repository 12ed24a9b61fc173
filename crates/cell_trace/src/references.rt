ghost use Rattle.std.specs.Prelude.{◌≡◌, ◌<◌, ◌^◌, length};
ghost use Rattle.rule_laws.specs.Meaning.{precedents, truth_precedents};

use rule_laws::{Formula, Truth};

/// How many references stand in a formula.
#[cycle(references)]
pub(crate) fn references(formula: &Formula) -> u32
    requires { length (precedents formula.now) < 2 ^ 32 }
    ensures { result ≡ length (precedents formula.now) }
{
    match formula {
        Formula::Number(_) => 0,
        Formula::Stet => 0,
        Formula::Continue => 0,
        Formula::Children(_) => 1,
        Formula::Ref(_) => 1,
        Formula::Table(_, _) => 0,
        Formula::Binary(_, left, right) => references(left.get()) + references(right.get()),
        Formula::Unary(_, inner) => references(inner.get()),
        Formula::If(truth, left, right) => {
            truth_references(truth.get()) + references(left.get()) + references(right.get())
        }
    }
}

/// How many references stand in a condition.
#[cycle(references)]
pub(crate) fn truth_references(truth: &Truth) -> u32
    requires { length (truth_precedents truth.now) < 2 ^ 32 }
    ensures { result ≡ length (truth_precedents truth.now) }
{
    match truth {
        Truth::Compare(_, left, right) => references(left) + references(right),
        Truth::And(left, right) => truth_references(left.get()) + truth_references(right.get()),
        Truth::Or(left, right) => truth_references(left.get()) + truth_references(right.get()),
        Truth::Not(inner) => truth_references(inner.get()),
    }
}
