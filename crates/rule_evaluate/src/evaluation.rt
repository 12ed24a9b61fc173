ghost use Rattle.std.specs.Prelude.{◌≡◌, ◌+◌, ◌≤◌, ◌<◌, true, drop, IfOk, IfErr, IsSome};
ghost use Rattle.cube_space.specs.Cells.{IsCell};
ghost use Rattle.rule_model.specs.System.{system_of};
ghost use Rattle.rule_model.specs.Governing.{rules_for, formula_at};
ghost use Rattle.rule_evaluate.specs.Readings.{statements_value};
ghost use Rattle.rule_evaluate.specs.Course.{passes, entered};

use crate::here::Here;
use crate::refs::Refs;
use crate::statements::statements;
use cube_fixed::{Steps, Value};
use cube_space::MAX_DIMENSIONS;
use rule_model::{Model, place_of};
use std::sync::ledger::Ledger;

/// What a statement of a cell's cube gives the cell, by what `refs` answers: the statement has a part for the cell.
/// `CONTINUE` goes on with the statements after it. Each statement that is entered is one step. There are no faults but
/// those of `refs`. A fault doesn't stop what is evaluated beside it whatever the answers are, as the other operand of
/// an operation: `both` makes one fault of those that come there.
///
/// Asked are only cells that references of the entered statements name, what the cell itself would have without a
/// statement, and sums over its components; of an `IF` the branch that is taken is asked for alone.
pub fn evaluate<R: Refs<M>, M, L: Ledger>(
    model: &Model,
    statement: u32,
    cell: u64,
    refs: &R,
    memory: &mut M,
    steps: &mut Steps<L>,
) -> Result<Value, R::Fault>
    requires cell { IsCell model.now.space cell }
    requires part { IsSome (formula_at model.now cell statement) }
    requires may_ask { passes (system_of model.now) (R.readings (R.terms refs.now memory.old)) cell
        (R.may_ask (R.terms refs.now memory.old))
        (drop statement (rules_for model.now cell)) ≡ true }
    ensures value { IfOk result (λ v. v
        ≡ statements_value (system_of model.now) (R.readings (R.terms refs.now memory.old)) cell
        (drop statement (rules_for model.now cell))) }
    ensures fault { IfErr result (λ e. R.may_fail (R.terms refs.now memory.old) e) }
    ensures terms { R.terms refs.now memory.new ≡ R.terms refs.now memory.old }
    ensures later { R.later memory.old memory.new }
    ensures counted { IfOk result (λ _. steps.new
        ≡ steps.old + entered (system_of model.now) (R.readings (R.terms refs.now memory.old)) cell
        (drop statement (rules_for model.now cell))) }
    ensures started { steps.old < steps.new }
    ensures most { steps.new ≤ steps.old
        + entered (system_of model.now) (R.readings (R.terms refs.now memory.old)) cell
        (drop statement (rules_for model.now cell)) }
{
    let mut at = [0u32; MAX_DIMENSIONS];
    let (cube, len) = place_of(model, cell, &mut at);
    let here = Here::new(model, cell, cube, &at[..len]);
    statements(&here, statement as usize, refs, memory, steps)
}
