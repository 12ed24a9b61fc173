ghost use Rattle.std.specs.Prelude.{◌≡◌, true, None, IfOk, IfErr, IfSome};
ghost use Rattle.cell_values.specs.Reading.{AreValuesOn, value_on};
ghost use Rattle.cell_values.specs.Inside.Answers.{IsMissing, AreMissing};
ghost use Rattle.cell_values.specs.Inside.Frames.{IsEvaluating};
ghost use Rattle.cell_values.specs.Inside.Questions.{IsAsked};
ghost use Rattle.memo_cells.specs.Knowledge.{Grew};
ghost use Rattle.rule_evaluate.specs.Known.{listed};
ghost use Rattle.rule_evaluate.specs.declared.ask.Ask.TheVariants.{Value as of_value};

use crate::answers::Answers;
use crate::frames::Evaluation;
use crate::keeping::remembered;
use crate::missing::Missing;
use crate::sound::is_sound;
use cell_versions::Version;
use cube_fixed::{Steps, Value};
use memo_cells::Memory;
use rule_evaluate::{Ask, Given, evaluate};
use std::alloc::Global;
use std::sync::ledger::Ledger;

impl Evaluation {
    /// What the statements give the cell, or a question that has to be answered before. The statements are evaluated
    /// once all questions are answered that the last evaluation left open.
    pub(crate) fn go_on<M: Memory, L: Ledger>(
        &mut self,
        alloc: Global,
        version: &Version,
        memory: &mut M,
        steps: &mut Steps<L>,
    ) -> Result<Value, Ask>
        requires own { IsEvaluating version.now self.old (of_value self.old.cell) }
        requires values { AreValuesOn version.now (M.values memory.old) }
        ensures value { IfOk result (λ v. v ≡ value_on version.now self.old.cell) }
        ensures missing { IfErr result (IsMissing (record {
          version = version.now;
          known = self.old.known.items;
          cell = self.old.cell;
        })) }
        ensures own { IsEvaluating version.now self.new (of_value self.new.cell) }
        ensures known { self.new.known ≡ self.old.known }
        ensures cell { self.new.cell ≡ self.old.cell }
        ensures asked { self.new.asked ≡ self.old.asked }
        ensures values { M.values memory.new ≡ M.values memory.old }
        ensures grew { Grew (M.known memory.old) (M.known memory.new) }
    {
        if let Some(question) = self.next_pending(version, memory) {
            return Err(question);
        }
        match self.attempt(alloc, version, memory, steps) {
            Ok(value) => Ok(value),
            Err(missing) => {
                self.pending = missing.more;
                Err(missing.first)
            }
        }
    }

    // The next question of the last evaluation that still has no answer.
    fn next_pending<M: Memory>(&mut self, version: &Version, memory: &mut M) -> Option<Ask>
        requires own { IsEvaluating version.now self.old (of_value self.old.cell) }
        ensures missing { IfSome result (IsMissing (record {
          version = version.now;
          known = self.old.known.items;
          cell = self.old.cell;
        })) }
        ensures own { IsEvaluating version.now self.new (of_value self.new.cell) }
        ensures known { self.new.known ≡ self.old.known }
        ensures cell { self.new.cell ≡ self.old.cell }
        ensures statement { self.new.statement ≡ self.old.statement }
        ensures asked { self.new.asked ≡ self.old.asked }
        ensures values { M.values memory.new ≡ M.values memory.old }
        ensures grew { Grew (M.known memory.old) (M.known memory.new) }
    {
        'pending: while let Some(question) = self.pending.pop() {
            if is_open(version, memory, &self.known, question) {
                return Some(question);
            }
        }
        None
    }

    // What the statements give the cell, or the questions that have to be answered before.
    fn attempt<M: Memory, L: Ledger>(
        &self,
        alloc: Global,
        version: &Version,
        memory: &mut M,
        steps: &mut Steps<L>,
    ) -> Result<Value, Missing>
        requires own { IsEvaluating version.now self.now (of_value self.now.cell) }
        requires values { AreValuesOn version.now (M.values memory.old) }
        ensures value { IfOk result (λ v. v ≡ value_on version.now self.now.cell) }
        ensures missing { IfErr result (AreMissing (record {
          version = version.now;
          known = self.now.known.items;
          cell = self.now.cell;
        })) }
        ensures values { M.values memory.new ≡ M.values memory.old }
        ensures grew { Grew (M.known memory.old) (M.known memory.new) }
    {
        is_sound(version);
        let answers = Answers::new(alloc, version, &self.known, self.cell);
        evaluate(
            version.model(),
            self.statement,
            self.cell,
            &answers,
            memory,
            steps,
        )
    }
}

// Whether a question still has to be answered: its answer is neither remembered nor listed.
fn is_open<M: Memory>(
    version: &Version,
    memory: &mut M,
    known: &[(Ask, Value)],
    question: Ask,
) -> bool
    requires { IsAsked version.now question }
    ensures open { result ≡ true → listed known.now question ≡ None }
    ensures values { M.values memory.new ≡ M.values memory.old }
    ensures grew { Grew (M.known memory.old) (M.known memory.new) }
{
    match question {
        Ask::Value(cell) => match remembered(version, memory, cell) {
            Some(_) => false,
            None => is_unlisted(known, question),
        },
        _ => is_unlisted(known, question),
    }
}

// Whether no answer to a question is listed.
fn is_unlisted(known: &[(Ask, Value)], question: Ask) -> bool
    ensures { result ≡ true → listed known.now question ≡ None }
{
    match Given::new(known).answer(question) {
        Ok(_) => false,
        Err(_) => true,
    }
}
