ghost use Rattle.std.specs.Prelude.{◌≡◌, Bool, true, Ok, IfOk, IfErr};
ghost use Rattle.rule_evaluate.specs.declared.ask.Ask.{Ask};
ghost use Rattle.rule_evaluate.specs.declared.ask.Ask.TheVariants.{Value as of_value, Base as of_base};
ghost use Rattle.rule_evaluate.specs.declared.ask.Ask.TheVariants.{Children as of_children};
ghost use Rattle.rule_evaluate.specs.Readings.{Readings};

use cube_fixed::Value;

/// What a formula reads of other cells, and of its own beside its statements.
///
/// `M` is what the implementation remembers. An answer may change it, and it is handed along. An answer that is given
/// is the right one; a fault may come where the implementation says so, and no two calls need agree on it.
pub trait Refs<M> {
    type Fault;
    /// On what terms it answers. They stay the same while it answers.
    ghost Terms: { Type 0 };

    ghost terms: { Self → M → Terms };
    /// The right answers.
    ghost readings: { Terms → Readings };
    /// The questions that it may be asked.
    ghost may_ask: { Terms → Ask → Bool };
    /// The faults that may come.
    ghost may_fail: { Terms → Self.Fault → Type 0 };
    /// How what is remembered may change: the second is what a first may have become.
    ghost later: { M → M → Type 0 };

    /// The value of a cell.
    fn value(&self, memory: &mut M, cell: u64) -> Result<Value, Self::Fault>
        requires { may_ask (terms self.now memory.old) (of_value cell) ≡ true }
        ensures value { IfOk result (λ v. v ≡ (readings (terms self.now memory.old)).value cell) }
        ensures fault { IfErr result (λ e. may_fail (terms self.now memory.old) e) }
        ensures terms { terms self.now memory.new ≡ terms self.now memory.old }
        ensures later { later memory.old memory.new };

    /// What a cell would have if no statement governed it: what is stored in a leaf cell, the weighted sum of the leaf
    /// cells below a consolidated one.
    fn base(&self, memory: &mut M, cell: u64) -> Result<Value, Self::Fault>
        requires { may_ask (terms self.now memory.old) (of_base cell) ≡ true }
        ensures value { IfOk result (λ v. v ≡ (readings (terms self.now memory.old)).base cell) }
        ensures fault { IfErr result (λ e. may_fail (terms self.now memory.old) e) }
        ensures terms { terms self.now memory.new ≡ terms self.now memory.old }
        ensures later { later memory.old memory.new };

    /// The weighted sum over the components of a cell's element, in the dimension at this place of its cube.
    fn children(&self, memory: &mut M, cell: u64, dim: u32) -> Result<Value, Self::Fault>
        requires { may_ask (terms self.now memory.old) (of_children cell dim) ≡ true }
        ensures value { IfOk result (λ v. v ≡ (readings (terms self.now memory.old)).children cell dim) }
        ensures fault { IfErr result (λ e. may_fail (terms self.now memory.old) e) }
        ensures terms { terms self.now memory.new ≡ terms self.now memory.old }
        ensures later { later memory.old memory.new };

    /// Two values, or one fault for those of both. The left one came first.
    fn both(
        &self,
        memory: &M,
        left: Result<Value, Self::Fault>,
        right: Result<Value, Self::Fault>,
    ) -> Result<(Value, Value), Self::Fault>
        requires left { IfErr left (λ e. may_fail (terms self.now memory.now) e) }
        requires right { IfErr right (λ e. may_fail (terms self.now memory.now) e) }
        ensures values { IfOk result (λ pair. (left ≡ Ok pair.0) × (right ≡ Ok pair.1)) }
        ensures fault { IfErr result (λ e. may_fail (terms self.now memory.now) e) };

    ghost later_same: { (m : M) → later m m };

    ghost later_later: { (a b c : M) → later a b → later b c → later a c };
}
