//! The law of the feeder check: that feeders cover a reference is decided dimension by dimension.
//!
//! `specs/Looking.antt` has what arguments name from the leaf cells of an area, narrowed to the elements from which
//! they do; `specs/Covered.antt` has the decision over the tables of a model. That it is the cover of `rule_laws`,
//! which speaks of every cell, is the contract of [`cover_is_decided_by_dimension`].
#![tactic(auto)]

ghost use Rattle.std.specs.Prelude.{◌≡◌, ℕ, ◌<◌, ◌↔◌, length, IsTrue};
ghost use Rattle.cube_space.specs.Cells.{IsSpace};
ghost use Rattle.rule_laws.specs.declared.reference.Reference.{Reference};
ghost use Rattle.rule_laws.specs.Cover.{IsCoveredReference};
ghost use Rattle.rule_model.specs.declared.rules.Statement.{Statement};
ghost use Rattle.rule_model.specs.BoundModel.{BoundModel};
ghost use Rattle.rule_model.specs.System.{system_of, rule_of};
ghost use Rattle.rule_model.specs.Conditions.{IsArea, IsReference, AreRules};
ghost use Rattle.cover_laws.specs.Covered.{is_covered};

/// Of a statement of a cube and a reference of its formula: the decision by dimension is the one over every cell.
pub fn cover_is_decided_by_dimension()
    ensures { (m : BoundModel) (cube : ℕ) (statement : Statement) (r : Reference) → IsSpace m.space
        → AreRules m.space m.rules → cube < length m.space.cubes → IsArea m.space cube statement.area
        → IsReference m.space cube r
        → IsTrue (is_covered m cube statement.area r)
        ↔ IsCoveredReference (system_of m) (rule_of m.space cube statement) r }
{}
