ghost use Rattle.std.specs.Prelude.{◌≡◌, ◌+◌, ◌≤◌, ◌<◌, true, false, IfOk, IfErr, IsSome};
ghost use Rattle.rule_model.specs.Governing.{governing_from};
ghost use Rattle.rule_model.specs.Input.{has_continue};
ghost use Rattle.rule_evaluate.specs.Inside.Scene.{value_from, passes_from, entered_from};
ghost use Rattle.rule_evaluate.specs.Inside.Scene.{course_from, entered_after, IsReady, IsEnd};

use crate::continues::{continues, truth_continues};
use crate::formulas::{holds, stet, value_of};
use crate::here::Here;
use crate::refs::Refs;
use cube_fixed::{Steps, Value};
use rule_laws::Formula;
use std::sync::ledger::Ledger;

// What a formula gives, of a statement before those from `next` on, which are taken first where CONTINUE stands in it.
#[cycle(statements)]
fn whole<M, R: Refs<M>, L: Ledger>(
    here: &Here,
    next: usize,
    formula: &Formula,
    refs: &R,
    memory: &mut M,
    steps: &mut Steps<L>,
) -> Result<Option<Value>, R::Fault>
    requires ready { IsReady here.now (R.readings (R.terms refs.now memory.old))
        (R.may_ask (R.terms refs.now memory.old)) next formula.now }
    requires same { (course_from here.now (R.readings (R.terms refs.now memory.old)) next formula.now).goes_on
        ≡ has_continue formula.now }
    ensures end { IfOk result
        (IsEnd here.now (R.readings (R.terms refs.now memory.old)) next formula.now steps.old steps.new) }
    ensures fault { IfErr result (λ e. R.may_fail (R.terms refs.now memory.old) e) }
    ensures terms { R.terms refs.now memory.new ≡ R.terms refs.now memory.old }
    ensures later { R.later memory.old memory.new }
    ensures from { steps.old ≤ steps.new }
    ensures most { steps.new ≤ steps.old
        + entered_after here.now (R.readings (R.terms refs.now memory.old)) next formula.now }
{
    if !continues(formula) {
        let value = value_of(here, &Value::ZERO, formula, refs, memory)?;
        return Ok(Some(value));
    }
    let rest = statements(here, next, refs, memory, steps)?;
    let value = value_of(here, &rest, formula, refs, memory)?;
    Ok(Some(value))
}

// What a formula gives, of a statement before those from `next` on; None where these give it, at a CONTINUE that is the
// whole formula or the branch of an `IF` that stands so.
#[cycle(statements)]
fn end_of<M, R: Refs<M>, L: Ledger>(
    here: &Here,
    next: usize,
    formula: &Formula,
    refs: &R,
    memory: &mut M,
    steps: &mut Steps<L>,
) -> Result<Option<Value>, R::Fault>
    requires ready { IsReady here.now (R.readings (R.terms refs.now memory.old))
        (R.may_ask (R.terms refs.now memory.old)) next formula.now }
    ensures end { IfOk result
        (IsEnd here.now (R.readings (R.terms refs.now memory.old)) next formula.now steps.old steps.new) }
    ensures fault { IfErr result (λ e. R.may_fail (R.terms refs.now memory.old) e) }
    ensures terms { R.terms refs.now memory.new ≡ R.terms refs.now memory.old }
    ensures later { R.later memory.old memory.new }
    ensures from { steps.old ≤ steps.new }
    ensures most { steps.new ≤ steps.old
        + entered_after here.now (R.readings (R.terms refs.now memory.old)) next formula.now }
{
    match formula {
        Formula::Continue => Ok(None),
        Formula::If(truth, left, right) => {
            let truth = truth.get();
            if truth_continues(truth) {
                return whole(here, next, formula, refs, memory, steps);
            }
            if holds(here, &Value::ZERO, truth, refs, memory)? {
                end_of(here, next, left.get(), refs, memory, steps)
            } else {
                end_of(here, next, right.get(), refs, memory, steps)
            }
        }
        _ => whole(here, next, formula, refs, memory, steps),
    }
}

/// What the statements from a place on give.
#[cycle(statements)]
pub(crate) fn statements<M, R: Refs<M>, L: Ledger>(
    here: &Here,
    first: usize,
    refs: &R,
    memory: &mut M,
    steps: &mut Steps<L>,
) -> Result<Value, R::Fault>
    requires { passes_from here.now (R.readings (R.terms refs.now memory.old))
        (R.may_ask (R.terms refs.now memory.old)) first ≡ true }
    ensures value { IfOk result (λ v. v ≡ value_from here.now (R.readings (R.terms refs.now memory.old)) first) }
    ensures fault { IfErr result (λ e. R.may_fail (R.terms refs.now memory.old) e) }
    ensures terms { R.terms refs.now memory.new ≡ R.terms refs.now memory.old }
    ensures later { R.later memory.old memory.new }
    ensures counted { IfOk result (λ _. steps.new
        ≡ steps.old + entered_from here.now (R.readings (R.terms refs.now memory.old)) first) }
    ensures from { steps.old ≤ steps.new }
    ensures most { steps.new ≤ steps.old + entered_from here.now (R.readings (R.terms refs.now memory.old)) first }
    ensures started { IsSome (governing_from here.now.model here.now.cell first) → steps.old < steps.new }
{
    let mut from = first;
    'each: while let Some((place, formula)) = here.next(from) {
        steps.tick();
        from = place as usize + 1;
        if let Some(value) = end_of(here, from, formula, refs, memory, steps)? {
            return Ok(value);
        }
    }
    stet(here, refs, memory)
}
