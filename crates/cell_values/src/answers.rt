ghost use Rattle.std.specs.Prelude.{◌≡◌, [], Some, None, IfErr, IfOk};
ghost use Rattle.cell_values.specs.Inside.Frames.{AreRight};
ghost use Rattle.cell_values.specs.Inside.Questions.{answer_on};
ghost use Rattle.rule_evaluate.specs.Known.{listed};

use crate::keeping::remembered;
use crate::missing::Missing;
use crate::sound::is_sound;
use crate::told::told;
use cell_versions::Version;
use cube_fixed::Value;
use memo_cells::Memory;
use rule_evaluate::{Ask, Given, Refs};
use std::alloc::Global;

// The most questions that a frame holds back while it waits, where so many are answered: few at first, since many
// frames may wait for their first answer at the same time.
fn most_pending(answered: usize) -> usize {
    answered.saturating_mul(3).saturating_add(8)
}

/// What the evaluation of a cell is answered: from the memory, from the list, or at once. Else the question is missing.
#[derive(Drop)]
pub(crate) struct Answers<'a> {
    alloc: Global,
    version: &'a Version,
    known: &'a [(Ask, Value)],
    cell: u64,
}

impl<'a> std::marker::Model for Answers<'a> {
    ghost use Rattle.cell_values.specs.Inside.Answers.{ListedAnswers};
    ghost use Rattle.cell_values.specs.Inside.Frames.{AreRight};
    ghost use Rattle.rule_laws.specs.contracts.formula.Formula as formula;
    ghost use Rattle.std.specs.Coded.{codes};

    ghost Value = { ListedAnswers };

    ghost coded = { Prim.hlevel (codes, formula.the_row.coded) };

    ghost view = { λ a. record { version = a.version.now; known = a.known.now; cell = a.cell } };

    ghost invariant = { λ a. AreRight a.version.now a.known.now };
}

impl<'a> Answers<'a> {
    /// For this cell, with these answers.
    pub(crate) fn new(
        alloc: Global,
        version: &'a Version,
        known: &'a [(Ask, Value)],
        cell: u64,
    ) -> Answers<'a>
        requires { AreRight version.now known.now }
        ensures { result ≡ record { version = version.now; known = known.now; cell = cell } }
    {
        Answers {
            alloc,
            version,
            known,
            cell,
        }
    }

    // The answer that the list alone has to a question.
    fn listed(&self, question: Ask) -> Result<Value, Missing>
        ensures value { IfOk result (λ v. listed self.now.known question ≡ Some v) }
        ensures right { IfOk result (λ v. v ≡ answer_on self.now.version question) }
        ensures fault { IfErr result (λ missing. (listed self.now.known question ≡ None)
            × (missing.first ≡ question) × (missing.more.items ≡ [])) }
    {
        match Given::new(self.known).answer(question) {
            Ok(value) => Ok(value),
            Err(open) => Err(Missing::new(self.alloc, open)),
        }
    }
}

impl<'a, M: Memory> Refs<M> for Answers<'a> {
    ghost use Rattle.std.specs.Prelude.{◌≡◌, Ok, IfOk, IfErr};
    ghost use Rattle.cell_values.specs.Inside.Answers.{AnswerTerms, AreMissing, may_ask};
    ghost use Rattle.cell_values.specs.Inside.Questions.{readings_on};
    ghost use Rattle.memo_cells.specs.Knowledge.{Grew};
    ghost use Rattle.cell_values.specs.Inside.Growth.{grew-same, grew-later};

    type Fault = Missing;

    ghost Terms = { AnswerTerms };

    ghost terms = { λ answers memory. record { listed = answers; values = M.values memory } };

    ghost readings = { λ terms. readings_on terms.listed.version };

    ghost may_ask = { may_ask };

    ghost may_fail = { λ terms missing. AreMissing terms.listed missing };

    ghost later = { λ before after. Grew (M.known before) (M.known after) };

    fn value(&self, memory: &mut M, cell: u64) -> Result<Value, Missing> {
        if let Some(value) = remembered(self.version, memory, cell) {
            return Ok(value);
        }
        match self.listed(Ask::Value(cell)) {
            Ok(value) => Ok(value),
            Err(missing) => match told(self.version, cell) {
                Some(value) => Ok(value),
                None => Err(missing),
            },
        }
    }

    fn base(&self, memory: &mut M, cell: u64) -> Result<Value, Missing> {
        is_sound(self.version);
        if self.version.model().space().is_leaf(cell) {
            return Ok(Value::Num(self.version.store().get(cell)));
        }
        self.listed(Ask::Base(cell))
    }

    fn children(&self, memory: &mut M, cell: u64, dim: u32) -> Result<Value, Missing> {
        self.listed(Ask::Children(cell, dim))
    }

    fn both(
        &self,
        memory: &M,
        left: Result<Value, Missing>,
        right: Result<Value, Missing>,
    ) -> Result<(Value, Value), Missing>
        requires left { IfErr left (λ missing. AreMissing self.now missing) }
        requires right { IfErr right (λ missing. AreMissing self.now missing) }
        ensures values { IfOk result (λ pair. (left ≡ Ok pair.0) × (right ≡ Ok pair.1)) }
        ensures fault { IfErr result (λ missing. AreMissing self.now missing) }
    {
        match left {
            Ok(left) => match right {
                Ok(right) => Ok((left, right)),
                Err(missing) => Err(missing),
            },
            Err(first) => match right {
                Ok(_) => Err(first),
                Err(second) => Err(first.with(second, most_pending(self.known.len()))),
            },
        }
    }

    ghost later_same = { λ m. grew-same (M.known m) };

    ghost later_later = { λ a b c ab bc. grew-later (M.known a) (M.known b) (M.known c) ab bc };
}
