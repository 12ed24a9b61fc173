ghost use Rattle.std.specs.Prelude.{◌≡◌, true, false, IfOk, IfErr};
ghost use Rattle.rule_model.specs.Input.{has_continue};
ghost use Rattle.cube_fixed.specs.declared.value.Value.TheVariants.{Num};
ghost use Rattle.rule_laws.specs.Tables.{number_of};
ghost use Rattle.rule_evaluate.specs.Readings.{Readings};
ghost use Rattle.rule_evaluate.specs.Inside.Scene.{sources_at, course_at, trial_at};

use crate::here::Here;
use crate::refs::Refs;
use cube_fixed::Value;
use rule_laws::{ElementTable, Formula, Reference, Truth};

/// What `STET` gives.
#[tactic(auto, unfolding(crate::specs::Course::sources_of))]
pub(crate) fn stet<M, R: Refs<M>>(here: &Here, refs: &R, memory: &mut M) -> Result<Value, R::Fault>
    requires { ((sources_at here.now (R.readings (R.terms refs.now memory.old))).stet).passes
        (R.may_ask (R.terms refs.now memory.old)) ≡ true }
    ensures value { IfOk result (λ v. v
        ≡ ((sources_at here.now (R.readings (R.terms refs.now memory.old))).stet).value) }
    ensures fault { IfErr result (λ e. R.may_fail (R.terms refs.now memory.old) e) }
    ensures terms { R.terms refs.now memory.new ≡ R.terms refs.now memory.old }
    ensures later { R.later memory.old memory.new }
{
    refs.base(memory, here.cell())
}

// What a reference gives.
#[tactic(auto, unfolding(crate::specs::Course::sources_of, rule_model::specs::System::system_of))]
fn named<M, R: Refs<M>>(
    here: &Here,
    reference: &Reference,
    refs: &R,
    memory: &mut M,
) -> Result<Value, R::Fault>
    requires { ((sources_at here.now (R.readings (R.terms refs.now memory.old))).named reference.now).passes
        (R.may_ask (R.terms refs.now memory.old)) ≡ true }
    ensures value { IfOk result (λ v. v
        ≡ ((sources_at here.now (R.readings (R.terms refs.now memory.old))).named reference.now).value) }
    ensures fault { IfErr result (λ e. R.may_fail (R.terms refs.now memory.old) e) }
    ensures terms { R.terms refs.now memory.new ≡ R.terms refs.now memory.old }
    ensures later { R.later memory.old memory.new }
{
    match here.target(reference) {
        Some(cell) => refs.value(memory, cell),
        None => Ok(Value::ZERO),
    }
}

// What `ConsolidateChildren` gives.
#[tactic(auto, unfolding(crate::specs::Course::sources_of, rule_model::specs::System::system_of))]
fn children<M, R: Refs<M>>(
    here: &Here,
    dim: u32,
    refs: &R,
    memory: &mut M,
) -> Result<Value, R::Fault>
    requires { ((sources_at here.now (R.readings (R.terms refs.now memory.old))).children dim).passes
        (R.may_ask (R.terms refs.now memory.old)) ≡ true }
    ensures value { IfOk result (λ v. v
        ≡ ((sources_at here.now (R.readings (R.terms refs.now memory.old))).children dim).value) }
    ensures fault { IfErr result (λ e. R.may_fail (R.terms refs.now memory.old) e) }
    ensures terms { R.terms refs.now memory.new ≡ R.terms refs.now memory.old }
    ensures later { R.later memory.old memory.new }
{
    if here.has_components(dim) {
        refs.children(memory, here.cell(), dim)
    } else {
        refs.base(memory, here.cell())
    }
}

// What a table has for the cell.
#[tactic(auto, unfolding(crate::specs::Course::sources_of, rule_model::specs::System::system_of))]
fn table_number(here: &Here, dim: u32, table: &ElementTable) -> Value
    ensures { (t : Readings) → result ≡ Num (number_of table.now ((sources_at here.now t).own dim)) }
{
    Value::Num(table.get(here.own(dim) as usize))
}

/// What a formula gives, where the statements after it give `rest`. Both operands of an operation are evaluated, also
/// where the first is stopped: so one evaluation asks all that it needs whatever the answers are.
#[cycle(value)]
pub(crate) fn value_of<M, R: Refs<M>>(
    here: &Here,
    rest: &Value,
    formula: &Formula,
    refs: &R,
    memory: &mut M,
) -> Result<Value, R::Fault>
    requires { (course_at here.now (R.readings (R.terms refs.now memory.old)) rest.now formula.now).passes
        (R.may_ask (R.terms refs.now memory.old)) ≡ true }
    ensures value { IfOk result (λ v. v
        ≡ (course_at here.now (R.readings (R.terms refs.now memory.old)) rest.now formula.now).value) }
    ensures fault { IfErr result (λ e. R.may_fail (R.terms refs.now memory.old) e) }
    ensures terms { R.terms refs.now memory.new ≡ R.terms refs.now memory.old }
    ensures later { R.later memory.old memory.new }
{
    match formula {
        Formula::Number(number) => Ok(Value::Num(*number)),
        Formula::Stet => stet(here, refs, memory),
        Formula::Continue => Ok(*rest),
        Formula::Children(dim) => children(here, *dim, refs, memory),
        Formula::Ref(reference) => named(here, reference, refs, memory),
        Formula::Table(dim, table) => Ok(table_number(here, *dim, table)),
        Formula::Binary(op, left, right) => {
            let left = value_of(here, rest, left.get(), refs, memory);
            let right = value_of(here, rest, right.get(), refs, memory);
            let (left, right) = refs.both(memory, left, right)?;
            Ok(op.apply(left, right))
        }
        Formula::Unary(fun, inner) => {
            let inner = value_of(here, rest, inner.get(), refs, memory)?;
            Ok(fun.apply(inner))
        }
        Formula::If(truth, left, right) => {
            if holds(here, rest, truth.get(), refs, memory)? {
                value_of(here, rest, left.get(), refs, memory)
            } else {
                value_of(here, rest, right.get(), refs, memory)
            }
        }
    }
}

/// Whether a condition holds, where the statements after its formula give `rest`.
#[cycle(value)]
pub(crate) fn holds<M, R: Refs<M>>(
    here: &Here,
    rest: &Value,
    truth: &Truth,
    refs: &R,
    memory: &mut M,
) -> Result<bool, R::Fault>
    requires { (trial_at here.now (R.readings (R.terms refs.now memory.old)) rest.now truth.now).passes
        (R.may_ask (R.terms refs.now memory.old)) ≡ true }
    ensures value { IfOk result (λ v. v
        ≡ (trial_at here.now (R.readings (R.terms refs.now memory.old)) rest.now truth.now).holds) }
    ensures fault { IfErr result (λ e. R.may_fail (R.terms refs.now memory.old) e) }
    ensures terms { R.terms refs.now memory.new ≡ R.terms refs.now memory.old }
    ensures later { R.later memory.old memory.new }
{
    match truth {
        Truth::Compare(rel, left, right) => {
            let left = value_of(here, rest, left, refs, memory);
            let right = value_of(here, rest, right, refs, memory);
            let (left, right) = refs.both(memory, left, right)?;
            Ok(rel.holds(left, right))
        }
        Truth::And(left, right) => {
            if holds(here, rest, left.get(), refs, memory)? {
                holds(here, rest, right.get(), refs, memory)
            } else {
                Ok(false)
            }
        }
        Truth::Or(left, right) => {
            if holds(here, rest, left.get(), refs, memory)? {
                Ok(true)
            } else {
                holds(here, rest, right.get(), refs, memory)
            }
        }
        Truth::Not(inner) => {
            let inner = holds(here, rest, inner.get(), refs, memory)?;
            Ok(!inner)
        }
    }
}
