use crate::plain::{Never, Plain};
use crate::sums::value_at;
use cube_fixed::Value;
use rule_evaluate::Refs;

impl<'a> Refs<()> for Plain<'a> {
    ghost use Rattle.std.specs.Prelude.{◌≡◌, true, ⊤, Ok, IfOk, IfErr};
    ghost use Rattle.rule_dense.specs.Inside.Plain.{PlainTable, plain_readings, may_be_asked};

    type Fault = Never;

    ghost Terms = { PlainTable };

    ghost terms = { λ plain memory. plain };

    ghost readings = { plain_readings };

    ghost may_ask = { may_be_asked };

    ghost may_fail = { λ plain fault. ⊤ };

    ghost later = { λ before after. ⊤ };

    #[tactic(auto, unfolding(crate::specs::Inside::Plain::plain_readings))]
    fn value(&self, memory: &mut (), cell: u64) -> Result<Value, Never> {
        Ok(value_at(self.values(), cell))
    }

    #[tactic(auto, unfolding(crate::specs::Inside::Plain::plain_readings))]
    fn base(&self, memory: &mut (), cell: u64) -> Result<Value, Never> {
        Ok(self.base_of(cell))
    }

    #[tactic(auto, unfolding(crate::specs::Inside::Plain::plain_readings))]
    fn children(&self, memory: &mut (), cell: u64, dim: u32) -> Result<Value, Never> {
        Ok(self.children_of(cell, dim as usize))
    }

    fn both(
        &self,
        memory: &(),
        left: Result<Value, Never>,
        right: Result<Value, Never>,
    ) -> Result<(Value, Value), Never>
        requires left { IfErr left (λ never. ⊤) }
        requires right { IfErr right (λ never. ⊤) }
        ensures values { IfOk result (λ pair. (left ≡ Ok pair.0) × (right ≡ Ok pair.1)) }
        ensures fault { IfErr result (λ never. ⊤) }
    {
        match left {
            Ok(left) => match right {
                Ok(right) => Ok((left, right)),
                Err(never) => Err(never),
            },
            Err(never) => Err(never),
        }
    }

    ghost later_same = { λ m. tt };

    ghost later_later = { λ a b c ab bc. tt };
}
