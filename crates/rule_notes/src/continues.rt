ghost use Rattle.std.specs.Prelude.{◌≡◌};
ghost use Rattle.rule_model.specs.Input.{has_continue};
ghost use Rattle.rule_model.specs.Inside.Parts.{truth_has_continue};

use rule_laws::{Formula, Truth};

/// Whether `CONTINUE` stands in a formula.
#[cycle(continues)]
pub fn continues(formula: &Formula) -> bool
    ensures { result ≡ has_continue formula.now }
{
    match formula {
        Formula::Number(_) => false,
        Formula::Stet => false,
        Formula::Continue => true,
        Formula::Children(_) => false,
        Formula::Ref(_) => false,
        Formula::Table(_, _) => false,
        Formula::Binary(_, left, right) => continues(left.get()) || continues(right.get()),
        Formula::Unary(_, inner) => continues(inner.get()),
        Formula::If(truth, left, right) => {
            truth_continues(truth.get()) || continues(left.get()) || continues(right.get())
        }
    }
}

// Whether `CONTINUE` stands in a condition.
#[cycle(continues)]
fn truth_continues(truth: &Truth) -> bool
    ensures { result ≡ truth_has_continue truth.now }
{
    match truth {
        Truth::Compare(_, left, right) => continues(left) || continues(right),
        Truth::And(left, right) => truth_continues(left.get()) || truth_continues(right.get()),
        Truth::Or(left, right) => truth_continues(left.get()) || truth_continues(right.get()),
        Truth::Not(inner) => truth_continues(inner.get()),
    }
}
