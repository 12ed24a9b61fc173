ghost use Rattle.std.specs.Prelude.{◌≡◌, ◌<◌, []};
ghost use Rattle.cell_values.specs.Reading.{value_on};
ghost use Rattle.cell_values.specs.Inside.Frames.{IsWork, work_left};
ghost use Rattle.cell_values.specs.Inside.Questions.{work_on};
ghost use Rattle.cube_space.specs.Cells.{IsCell};
ghost use Rattle.memo_cells.specs.Knowledge.{Grew};
ghost use Rattle.rule_evaluate.specs.declared.ask.Ask.TheVariants.{Value as of_value};
ghost use Rattle.solver.specs.Turns.{MatchOpened};

use crate::begins::{base_sum, component_sum, evaluation, total};
use crate::frames::Frame;
use crate::keeping::{keep, reserve};
use crate::origin::Origin;
use crate::told::origin_of;
use crate::turns::{give, go_on};
use cell_versions::Version;
use cube_fixed::{Steps, Value};
use memo_cells::Memory;
use rule_evaluate::Ask;
use solver::{Opened, Problem, Turn};
use std::alloc::{AllocError, Global};
use std::sync::ledger::Ledger;

/// Who works out values on a version. The lists of frames that are done serve the frames to come.
#[derive(Drop)]
pub struct Reader<'a> {
    pub(crate) version: &'a Version,
    alloc: Global,
    spare: Vec<Vec<(Ask, Value)>>,
}

impl<'a> Reader<'a> {
    /// A reader of this version.
    pub(crate) fn new(alloc: Global, version: &'a Version) -> Reader<'a>
        ensures { result.version.now ≡ version.now }
    {
        Reader {
            version,
            alloc,
            spare: Vec::new(alloc),
        }
    }

    /// An empty list of answers.
    pub(crate) fn list(&mut self) -> Vec<(Ask, Value)>
        ensures list { result.items ≡ [] }
        ensures version { self.new.version.now ≡ self.old.version.now }
    {
        match self.spare.pop() {
            Some(mut list) => {
                list.clear();
                list
            }
            None => Vec::new(self.alloc),
        }
    }

    // Takes back the list of a frame that is done.
    fn take_back(&mut self, frame: Frame) -> Result<(), AllocError>
        ensures { self.new.version.now ≡ self.old.version.now }
    {
        if let Frame::Evaluation(evaluation) = frame {
            if !evaluation.known.is_empty() {
                self.spare.push(evaluation.known)?;
            }
        }
        Ok(())
    }

    /// A total's value has its place before those of the cells under it.
    pub(crate) fn reserve_total<M: Memory>(&self, memory: &mut M, cell: u64)
        requires { IsCell self.now.version.now.model.space cell }
        ensures values { M.values memory.new ≡ M.values memory.old }
        ensures grew { Grew (M.known memory.old) (M.known memory.new) }
    {
        if !self.version.model().space().is_leaf(cell) {
            reserve(self.version, memory, cell);
        }
    }

    /// How the work on the value of a cell begins.
    pub(crate) fn begin(&mut self, cell: u64) -> Opened<Value, Frame>
        requires { IsCell self.old.version.now.model.space cell }
        ensures opened { MatchOpened result (λ v. v ≡ value_on self.old.version.now cell)
            (λ frame. IsWork self.old.version.now frame (of_value cell)
            × (work_left self.old.version.now frame < work_on self.old.version.now (of_value cell))) }
        ensures version { self.new.version.now ≡ self.old.version.now }
    {
        match origin_of(self.version, cell) {
            Origin::Stored(value) => Opened::Known(value),
            Origin::Plain(value) => Opened::Known(value),
            Origin::Statement(statement) => {
                let known = self.list();
                Opened::Begun(evaluation(self.alloc, self.version, cell, statement, known))
            }
            Origin::Leaves => Opened::Begun(total(self.version, cell)),
        }
    }
}

impl<'a, M: Memory, L: Ledger> Problem<M, Steps<L>> for Reader<'a> {
    ghost use Rattle.cell_values.specs.Inside.Questions.{Setting, IsQuestion, answer_on, work_on};
    ghost use Rattle.cell_values.specs.Inside.Frames.{Serves, Waits, work_left};
    ghost use Rattle.memo_cells.specs.Knowledge.{Grew};
    ghost use Rattle.cell_values.specs.Inside.Growth.{grew-same, grew-later};

    type Question = Ask;

    type Answer = Value;

    type Frame = Frame;

    ghost World = { Setting };

    ghost world = { λ reader memory. record { version = reader.version.now; values = M.values memory } };

    ghost answer_of = { λ w question. answer_on w.version question };

    ghost is_question = { IsQuestion };

    ghost work = { λ w question. work_on w.version question };

    ghost serves = { Serves };

    ghost waits = { Waits };

    ghost left = { λ w frame question. work_left w.version frame };

    ghost later = { λ before after. Grew (M.known before) (M.known after) };

    fn step(
        &mut self,
        memory: &mut M,
        count: &mut Steps<L>,
        frame: &mut Frame,
        question: Ask,
    ) -> Result<Turn<Ask, Value>, AllocError> {
        Ok(go_on(self.alloc, self.version, memory, count, frame, question))
    }

    fn open(&mut self, memory: &mut M, question: Ask) -> Result<Opened<Value, Frame>, AllocError> {
        match question {
            Ask::Value(cell) => {
                self.reserve_total(memory, cell);
                Ok(self.begin(cell))
            }
            Ask::Base(cell) => Ok(Opened::Begun(base_sum(self.version, cell))),
            Ask::Children(cell, dim) => Ok(Opened::Begun(component_sum(self.version, cell, dim))),
        }
    }

    fn give(
        &mut self,
        memory: &mut M,
        frame: &mut Frame,
        question: Ask,
        asked: Ask,
        answer: &Value,
    ) -> Result<(), AllocError> {
        give(self.version, frame, question, asked, answer)
    }

    fn close(
        &mut self,
        memory: &mut M,
        frame: Frame,
        question: Ask,
        answer: &Value,
    ) -> Result<(), AllocError> {
        if let Ask::Value(cell) = question {
            keep(self.version, memory, cell, answer);
        }
        self.take_back(frame)
    }

    ghost later_same = { λ m. grew-same (M.known m) };

    ghost later_later = { λ a b c ab bc. grew-later (M.known a) (M.known b) (M.known c) ab bc };

    ghost asked = { λ w f question next waits. waits.0 };
}
