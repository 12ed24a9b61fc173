ghost use Rattle.std.specs.Prelude.{◌≡◌};
ghost use Rattle.rule_evaluate.specs.Known.{is_same, answer_in};

use crate::ask::Ask;
use crate::refs::Refs;
use cube_fixed::Value;
use std::marker::Model;

/// Answers that are known. Who evaluates by restarts looks for the answer to the question that comes as a fault, lists
/// it with the others and evaluates again.
#[derive(Drop)]
pub struct Given<'a> {
    known: &'a [(Ask, Value)],
}

impl<'a> Model for Given<'a> {
    ghost use Rattle.rule_evaluate.specs.Known.{Known};

    ghost Value = { Known };

    ghost view = { λ given. given.known.now };
}

impl<'a> Given<'a> {
    /// What this list has. Of two answers to the same question the first counts.
    pub fn new(known: &'a [(Ask, Value)]) -> Given<'a>
        ensures { result ≡ known.now }
    {
        Given { known }
    }

    /// The answer to a question; the question itself where none is known.
    #[tactic(auto, unfolding(crate::specs::Known::answer_in))]
    pub fn answer(&self, question: Ask) -> Result<Value, Ask>
        ensures { result ≡ answer_in self.now question }
    {
        for (asked, value) in self.known {
            if is_same(asked, &question) {
                return Ok(*value);
            }
        }
        Err(question)
    }
}

fn is_same(left: &Ask, right: &Ask) -> bool
    ensures { result ≡ is_same left.now right.now }
{
    match left {
        Ask::Value(cell) => match right {
            Ask::Value(other) => cell == other,
            _ => false,
        },
        Ask::Base(cell) => match right {
            Ask::Base(other) => cell == other,
            _ => false,
        },
        Ask::Children(cell, dim) => match right {
            Ask::Children(other, place) => cell == other && dim == place,
            _ => false,
        },
    }
}

impl<'a> Refs<()> for Given<'a> {
    ghost use Rattle.std.specs.Prelude.{◌≡◌, true, None, Ok, IfOk, IfErr, ⊤};
    ghost use Rattle.rule_evaluate.specs.declared.ask.Ask.TheVariants.{Value as of_value, Base as of_base};
    ghost use Rattle.rule_evaluate.specs.declared.ask.Ask.TheVariants.{Children as of_children};
    ghost use Rattle.rule_evaluate.specs.Known.{Known, listed, listed_readings, answer_in};

    type Fault = Ask;

    ghost Terms = { Known };

    ghost terms = { λ given memory. given };

    ghost readings = { listed_readings };

    ghost may_ask = { λ known question. true };

    ghost may_fail = { λ known fault. listed known fault ≡ None };

    ghost later = { λ before after. ⊤ };

    #[tactic(auto, unfolding(crate::specs::Known::answer_in, crate::specs::Known::listed_readings))]
    fn value(&self, memory: &mut (), cell: u64) -> Result<Value, Ask>
        ensures exact { result ≡ answer_in self.now (of_value cell) }
        ensures value { IfOk result (λ v. v ≡ (listed_readings self.now).value cell) }
        ensures fault { IfErr result (λ question. listed self.now question ≡ None) }
    {
        self.answer(Ask::Value(cell))
    }

    #[tactic(auto, unfolding(crate::specs::Known::answer_in, crate::specs::Known::listed_readings))]
    fn base(&self, memory: &mut (), cell: u64) -> Result<Value, Ask>
        ensures exact { result ≡ answer_in self.now (of_base cell) }
        ensures value { IfOk result (λ v. v ≡ (listed_readings self.now).base cell) }
        ensures fault { IfErr result (λ question. listed self.now question ≡ None) }
    {
        self.answer(Ask::Base(cell))
    }

    #[tactic(auto, unfolding(crate::specs::Known::answer_in, crate::specs::Known::listed_readings))]
    fn children(&self, memory: &mut (), cell: u64, dim: u32) -> Result<Value, Ask>
        ensures exact { result ≡ answer_in self.now (of_children cell dim) }
        ensures value { IfOk result (λ v. v ≡ (listed_readings self.now).children cell dim) }
        ensures fault { IfErr result (λ question. listed self.now question ≡ None) }
    {
        self.answer(Ask::Children(cell, dim))
    }

    fn both(
        &self,
        memory: &(),
        left: Result<Value, Ask>,
        right: Result<Value, Ask>,
    ) -> Result<(Value, Value), Ask>
        requires left { IfErr left (λ question. listed self.now question ≡ None) }
        requires right { IfErr right (λ question. listed self.now question ≡ None) }
        ensures values { IfOk result (λ pair. (left ≡ Ok pair.0) × (right ≡ Ok pair.1)) }
        ensures fault { IfErr result (λ question. listed self.now question ≡ None) }
    {
        match left {
            Ok(left) => match right {
                Ok(right) => Ok((left, right)),
                Err(question) => Err(question),
            },
            Err(question) => Err(question),
        }
    }

    ghost later_same = { λ m. tt };

    ghost later_later = { λ a b c ab bc. tt };
}
