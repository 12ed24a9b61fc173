ghost use Rattle.std.specs.Prelude.{◌≡◌, ℕ, suc, ◌+◌, Some, None, option_map};
ghost use Rattle.cube_fixed.specs.declared.value.Value.{Value};
ghost use Rattle.cube_space.specs.Cells.{IsSpace};
ghost use Rattle.rule_laws.specs.declared.formula.Formula.{Formula};
ghost use Rattle.rule_laws.specs.RuleSystem.{Stored, IsCell, SolvesRules, dense_value, base, value_at, value_from};
ghost use Rattle.rule_laws.specs.RuleSystem.{right_side, formula_at, governing, governing_from};
ghost use Rattle.rule_laws.specs.Ordered.{IsWellFormed, IsOrdered};
ghost use Rattle.rule_laws.specs.OrderByPlace.{IsOrderedByPlace, IsRankedBy};
ghost use Rattle.rule_model.specs.BoundModel.{BoundModel};
ghost use Rattle.rule_model.specs.Conditions.{AreRules};
ghost use Rattle.rule_model.specs.System.{system_of, positions_of};
ghost use Rattle.rule_model.specs.Governing as model;
ghost use Rattle.model_laws.specs.Statements.{statements_before, value_by_cube};

/// The statements of a cell's cube alone decide what the cell has: those of other cubes don't apply to it. In the
/// system they stand behind the statements of the cubes before, so each place among them is moved by how many those
/// are.
pub fn statements_of_the_cube_decide()
    ensures all { (m : BoundModel) (stored : Stored) (table : ℕ → Value) (c : ℕ) → IsCell (system_of m) c
        → right_side (system_of m) stored table c ≡ value_by_cube m stored table c 0 }
    ensures value { (m : BoundModel) (stored : Stored) (table : ℕ → Value) (c n : ℕ) → IsCell (system_of m) c
        → value_from (system_of m) stored table c (statements_before m c + n) ≡ value_by_cube m stored table c n }
    ensures first { (m : BoundModel) (c : ℕ) → IsCell (system_of m) c
        → governing (system_of m) c ≡ option_map (λ k. statements_before m c + k) (model.governing_from m c 0) }
    ensures next { (m : BoundModel) (c n : ℕ) → IsCell (system_of m) c
        → governing_from (system_of m) c (statements_before m c + n)
        ≡ option_map (λ k. statements_before m c + k) (model.governing_from m c n) }
    ensures formula { (m : BoundModel) (c n : ℕ) → IsCell (system_of m) c
        → formula_at (system_of m) c (statements_before m c + n) ≡ model.formula_at m c n }
{}

/// What the statements of a cell's cube from a place on give the cell: its base where none of them has a part for it,
/// else what the formula of the first that has gives, where `CONTINUE` is what the statements after that one give.
pub fn statements_of_the_cube_give_in_turn()
    ensures none { (m : BoundModel) (stored : Stored) (table : ℕ → Value) (c n : ℕ)
        → model.governing_from m c n ≡ None
        → value_by_cube m stored table c n ≡ base (system_of m) stored table c }
    ensures some { (m : BoundModel) (stored : Stored) (table : ℕ → Value) (c n k : ℕ)
        → model.governing_from m c n ≡ Some k → (f : Formula) × (model.formula_at m c k ≡ Some f)
        × (value_by_cube m stored table c n
        ≡ value_at (system_of m) stored table c (value_by_cube m stored table c (suc k)) f) }
{}

/// The system of a model is well formed: what lies below a cell are leaf cells that rank no higher, a reference names a
/// cell, components are cells of a smaller level, and just the leaf cells have level 0.
pub fn models_are_well_formed()
    ensures { (m : BoundModel) → IsSpace m.space → AreRules m.space m.rules → IsWellFormed (system_of m) }
{}

/// The ranks of the cells are their numbers at the positions of the declared order, the first position counting most,
/// and no level reaches the number of levels.
pub fn models_are_ranked()
    ensures { (m : BoundModel) → IsRankedBy (system_of m) (positions_of m) }
{}

/// Where the order check holds, the rules of a model are ordered, so that its dense values solve the rule equations,
/// whatever is stored, and no other values do.
pub fn ordered_models_have_one_solution()
    ensures ordered { (m : BoundModel) → IsSpace m.space → AreRules m.space m.rules
        → IsOrderedByPlace (system_of m) (positions_of m) → IsOrdered (system_of m) }
    ensures solution { (m : BoundModel) (stored : Stored) → IsSpace m.space → AreRules m.space m.rules
        → IsOrderedByPlace (system_of m) (positions_of m)
        → SolvesRules (system_of m) stored (dense_value (system_of m) stored) }
    ensures only { (m : BoundModel) (stored : Stored) (table : ℕ → Value) → IsSpace m.space → AreRules m.space m.rules
        → IsOrderedByPlace (system_of m) (positions_of m) → SolvesRules (system_of m) stored table
        → (c : ℕ) → IsCell (system_of m) c → table c ≡ dense_value (system_of m) stored c }
{}
