ghost use Rattle.std.specs.Prelude.{◌≡◌, ◌+◌, ◌<◌, ◌^◌};
ghost use Rattle.rule_laws.specs.ZeroTest.{truth_finding_step};
ghost use Rattle.rule_laws.specs.declared.formula.Formula.TheOpen.{Truth-F};

use rule_laws::{Finding, Rel, TruthFinding};
use zero_check::{known_value, sure_and, sure_comparison, sure_not, sure_or};

/// What is found of a comparison, by what is of its sides.
pub fn compared(rel: Rel, left: &Finding, right: &Finding) -> TruthFinding
    requires { left.now.operands + right.now.operands < 2 ^ 32 }
    ensures { result ≡ truth_finding_step (Truth-F.Compare rel left.now right.now) }
{
    TruthFinding {
        sure: sure_comparison(rel, known_value(left), known_value(right)),
        operands: left.operands + right.operands,
    }
}

/// What is found of `&`, by what is of its sides.
pub fn both(left: &TruthFinding, right: &TruthFinding) -> TruthFinding
    requires { left.now.operands + right.now.operands < 2 ^ 32 }
    ensures { result ≡ truth_finding_step (Truth-F.And left.now right.now) }
{
    TruthFinding {
        sure: sure_and(left.sure, right.sure),
        operands: left.operands + right.operands,
    }
}

/// What is found of `%`, by what is of its sides.
pub fn either(left: &TruthFinding, right: &TruthFinding) -> TruthFinding
    requires { left.now.operands + right.now.operands < 2 ^ 32 }
    ensures { result ≡ truth_finding_step (Truth-F.Or left.now right.now) }
{
    TruthFinding {
        sure: sure_or(left.sure, right.sure),
        operands: left.operands + right.operands,
    }
}

/// What is found of `~`, by what is of its inner condition.
pub fn opposite(inner: &TruthFinding) -> TruthFinding
    ensures { result ≡ truth_finding_step (Truth-F.Not inner.now) }
{
    TruthFinding {
        sure: sure_not(inner.sure),
        operands: inner.operands,
    }
}
