ghost use Rattle.std.specs.Prelude.{◌≡◌, ℕ, suc, ◌≤◌, Some, None, IsTrue, ◌↔◌, Bool, true, Contains};
ghost use Rattle.cube_fixed.specs.declared.value.Value.{Value};
ghost use Rattle.cube_fixed.specs.Arithmetic.{zero_value};
ghost use Rattle.rule_laws.specs.declared.formula.Formula.{Formula};
ghost use Rattle.rule_laws.specs.declared.formula.Truth.{Truth};
ghost use Rattle.rule_laws.specs.declared.reference.Reference.{Reference};
ghost use Rattle.rule_laws.specs.Meaning.{Named, precedents, truth_precedents, each_reference};
ghost use Rattle.rule_laws.specs.RuleSystem.{RuleSystem, Stored, IsCell, IsLeafCell, SolvesRules, dense_value};
ghost use Rattle.rule_laws.specs.RuleSystem.{base, value_at, value_from, governing_from, formula_at, right_side};
ghost use Rattle.rule_laws.specs.Ordered.{IsWellFormed, IsOrdered};
ghost use Rattle.rule_laws.specs.OrderByPlace.{Positions, IsOrderedByPlace, IsRankedBy};
ghost use Rattle.rule_laws.specs.Feeding.{IsFed};
ghost use Rattle.rule_laws.specs.Cover.{IsCovered};
ghost use Rattle.rule_laws.specs.ZeroTest.{zero_test, sure_test, blamed, operands};

/// In an ordered system the dense values solve the rule equations, whatever is stored.
pub fn dense_values_solve()
    ensures { (w : RuleSystem) (stored : Stored) → IsWellFormed w → IsOrdered w
        → SolvesRules w stored (dense_value w stored) }
{}

/// No other values do: a table that solves the rule equations of an ordered system has the dense value at each cell.
pub fn only_dense_values_solve()
    ensures { (w : RuleSystem) (stored : Stored) → IsWellFormed w → IsOrdered w
        → (table : ℕ → Value) → SolvesRules w stored table
        → (c : ℕ) → IsCell w c → table c ≡ dense_value w stored c }
{}

/// In an ordered and covered system a leaf cell that is neither stored nor fed has the value 0.
pub fn unfed_cells_are_zero()
    ensures { (w : RuleSystem) (stored : Stored) → IsWellFormed w → IsOrdered w → IsCovered w
        → (c : ℕ) → IsLeafCell w c → stored c ≡ None → (IsFed w stored c → ⊥)
        → dense_value w stored c ≡ zero_value }
{}

/// What the statements from a place on give a cell: its base where none of them has a part for it, else what the
/// formula of the first that has gives, where `CONTINUE` is what the statements after that one give. From place 0 on
/// this is the right side of the cell.
pub fn statements_give_in_turn()
    ensures all { (w : RuleSystem) (stored : Stored) (table : ℕ → Value) (c : ℕ)
        → value_from w stored table c 0 ≡ right_side w stored table c }
    ensures none { (w : RuleSystem) (stored : Stored) (table : ℕ → Value) (c n : ℕ)
        → governing_from w c n ≡ None → value_from w stored table c n ≡ base w stored table c }
    ensures some { (w : RuleSystem) (stored : Stored) (table : ℕ → Value) (c n m : ℕ)
        → governing_from w c n ≡ Some m → (f : Formula) × (formula_at w c m ≡ Some f)
        × (value_from w stored table c n ≡ value_at w stored table c (value_from w stored table c (suc m)) f) }
{}

/// A system whose references are decided by position and level, as the order check promises, is ordered.
pub fn order_by_place_is_an_order()
    ensures { (w : RuleSystem) (ps : Positions) → IsWellFormed w → IsRankedBy w ps → IsOrderedByPlace w ps
        → IsOrdered w }
{}

/// The zero test of a formula, the truth that a condition surely has, and the operand that is blamed rest on which of
/// the formula's own references are covered, and on nothing else.
pub fn findings_rest_on_references()
    ensures zero { (f : Formula) (covers other : Reference → Bool)
        → ((r : Reference) → Contains (precedents f) (Named r) → covers r ≡ other r)
        → zero_test covers f ≡ zero_test other f }
    ensures blamed { (f : Formula) (covers other : Reference → Bool)
        → ((r : Reference) → Contains (precedents f) (Named r) → covers r ≡ other r)
        → blamed covers f ≡ blamed other f }
    ensures sure { (truth : Truth) (covers other : Reference → Bool)
        → ((r : Reference) → Contains (truth_precedents truth) (Named r) → covers r ≡ other r)
        → sure_test covers truth ≡ sure_test other truth }
    ensures within { (f : Formula) (covers : Reference → Bool) → blamed covers f ≤ operands f }
    ensures each { (f : Formula) (test : Reference → Bool)
        → IsTrue (each_reference test f) ↔ ((r : Reference) → Contains (precedents f) (Named r) → test r ≡ true) }
{}
