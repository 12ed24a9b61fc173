//! The law of the order check: that what a formula reads stands before its cell is decided dimension by dimension.
//!
//! `specs/Greatest.antt` has the greatest of sums with one number a dimension, `specs/Earlier.antt` the decision over
//! the tables of a model. The laws are the contracts of [`order_is_decided_by_dimension`] and
//! [`models_are_ordered_by_dimension`]; the order itself is that of `rule_laws`, which speaks of every cell.
#![tactic(auto)]

ghost use Rattle.std.specs.Prelude.{ℕ, ◌<◌, Bool, ◌⊎◌, ◌↔◌, length, IsTrue};
ghost use Rattle.cube_space.specs.Cells.{IsSpace};
ghost use Rattle.rule_laws.specs.Meaning.{Precedent};
ghost use Rattle.rule_laws.specs.OrderByPlace.{IsDecidedByPosition, IsDecidedByLevel, IsOrderedByPlace};
ghost use Rattle.rule_model.specs.declared.rules.Statement.{Statement};
ghost use Rattle.rule_model.specs.BoundModel.{BoundModel};
ghost use Rattle.rule_model.specs.System.{system_of, positions_of, rule_of};
ghost use Rattle.rule_model.specs.Conditions.{IsArea, IsPrecedent, AreRules};
ghost use Rattle.order_laws.specs.Earlier.{is_earlier, IsOrderedByDimension};

/// Of a statement of a cube, a kind of cell and what a formula reads: the decision by dimension is the one over every
/// cell.
pub fn order_is_decided_by_dimension()
    ensures { (m : BoundModel) (cube : ℕ) (statement : Statement) (kind : Bool) (p : Precedent) → IsSpace m.space
        → AreRules m.space m.rules → cube < length m.space.cubes → IsArea m.space cube statement.area
        → IsPrecedent m.space cube p
        → IsTrue (is_earlier m cube statement.area kind p)
        ↔ (IsDecidedByPosition (system_of m) (positions_of m) (rule_of m.space cube statement) kind p
        ⊎ IsDecidedByLevel (system_of m) (positions_of m) (rule_of m.space cube statement) kind p) }
{}

/// A model is ordered just where each statement is so by dimension.
pub fn models_are_ordered_by_dimension()
    ensures { (m : BoundModel) → IsSpace m.space → AreRules m.space m.rules
        → IsOrderedByDimension m ↔ IsOrderedByPlace (system_of m) (positions_of m) }
{}
