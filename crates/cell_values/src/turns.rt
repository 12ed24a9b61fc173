ghost use Rattle.std.specs.Prelude.{◌≡◌, ◌+◌, ◌<◌, ◌≤◌, OnOk};
ghost use Rattle.cell_values.specs.Reading.{AreValuesOn};
ghost use Rattle.cell_values.specs.Inside.Frames.{IsWork, IsWaiting, work_left};
ghost use Rattle.cell_values.specs.Inside.Questions.{IsAsked, answer_on, work_on};
ghost use Rattle.memo_cells.specs.Knowledge.{Grew};
ghost use Rattle.solver.specs.Turns.{MatchTurn};

use crate::frames::Frame;
use cell_versions::Version;
use cube_fixed::{Steps, Value};
use memo_cells::Memory;
use rule_evaluate::Ask;
use solver::Turn;
use std::alloc::{AllocError, Global};
use std::sync::ledger::Ledger;

/// Goes on with a frame, up to the answer to its question or up to the next question.
pub(crate) fn go_on<M: Memory, L: Ledger>(
    alloc: Global,
    version: &Version,
    memory: &mut M,
    steps: &mut Steps<L>,
    frame: &mut Frame,
    question: Ask,
) -> Turn<Ask, Value>
    requires work { IsWork version.now frame.old question }
    requires values { AreValuesOn version.now (M.values memory.old) }
    ensures turn { MatchTurn result
        (λ next. IsAsked version.now next × IsWaiting version.now frame.new question next
        × (work_left version.now frame.new + work_on version.now next < work_left version.now frame.old))
        (λ v. v ≡ answer_on version.now question) }
    ensures values { M.values memory.new ≡ M.values memory.old }
    ensures grew { Grew (M.known memory.old) (M.known memory.new) }
{
    match frame {
        Frame::Evaluation(evaluation) => match evaluation.go_on(alloc, version, memory, steps) {
            Ok(value) => Turn::Done(value),
            Err(asked) => {
                evaluation.asked = Some(asked);
                Turn::Asks(asked)
            }
        },
        Frame::Leaves(sum) => match sum.go_on(version, memory) {
            Some(cell) => Turn::Asks(Ask::Value(cell)),
            None => Turn::Done(sum.walk.value()),
        },
        Frame::Components(sum) => match sum.go_on(version, memory) {
            Some(cell) => Turn::Asks(Ask::Value(cell)),
            None => Turn::Done(sum.sum.value()),
        },
    }
}

/// Gives a frame the answer that it waits for.
pub(crate) fn give(
    version: &Version,
    frame: &mut Frame,
    question: Ask,
    asked: Ask,
    answer: &Value,
) -> Result<(), AllocError>
    requires waits { IsWaiting version.now frame.old question asked }
    requires right { answer.now ≡ answer_on version.now asked }
    ensures work { OnOk result (IsWork version.now frame.new question) }
    ensures left { OnOk result (work_left version.now frame.new ≤ work_left version.now frame.old) }
{
    match frame {
        Frame::Evaluation(evaluation) => {
            evaluation.known.push((asked, *answer))?;
            evaluation.asked = None;
        }
        Frame::Leaves(sum) => sum.walk.add(sum.weight, *answer),
        Frame::Components(sum) => sum.sum.add(sum.weight, *answer),
    }
    Ok(())
}
