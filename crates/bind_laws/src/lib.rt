//! The laws of binding: what the text of a cube's rules means is the rules of a model, and a comparison that is settled
//! by a statement's area leaves the values of its leaf cells as they are.
//!
//! The laws are the contracts of [`bound_rules_meet_the_conditions`], [`a_settled_comparison_holds_alike`] and
//! [`a_leaf_part_keeps_its_values`], which do nothing when they run. `rule_bind` says what a text means, `rule_model`
//! what holds of the rules of a model, and `rule_tree` which texts are within the limits.
#![tactic(auto)]

ghost use Rattle.std.specs.Prelude.{◌≡◌, ℕ, ℤ, ◌<◌, true, List, [], Option, Some, length, Ok, slice_get};
ghost use Rattle.cube_fixed.specs.declared.value.Value.{Value};
ghost use Rattle.dim_core.specs.Outline.{Outline};
ghost use Rattle.cube_space.specs.Cells.{IsSpace, IsCell, cube_of, is_leaf_cell};
ghost use Rattle.cube_space.specs.Layout.{Layout, axes};
ghost use Rattle.rule_laws.specs.Meaning.{Others, formula_value};
ghost use Rattle.rule_laws.specs.Tables.{number_of};
ghost use Rattle.rule_laws.specs.declared.formula.Formula.{Formula};
ghost use Rattle.rule_laws.specs.declared.reference.Reference.{Reference};
ghost use Rattle.rule_tree.specs.Sizes.{IsWithinLimits};
ghost use Rattle.rule_tree.specs.declared.rule.RuleText.{RuleText};
ghost use Rattle.rule_tree.specs.declared.tree.Tree.{Tree};
ghost use Rattle.rule_model.specs.Areas.{in_set, in_area};
ghost use Rattle.rule_model.specs.Targets.{element_at};
ghost use Rattle.rule_model.specs.declared.area.Area.{Area};
ghost use Rattle.rule_model.specs.declared.rules.CubeRules.{CubeRules};
ghost use Rattle.rule_model.specs.Conditions.{AreCubeRules};
ghost use Rattle.rule_bind.specs.Rules.{part_of, rules_of};
ghost use Rattle.rule_bind.specs.Sureness.{Sets, is_leaf_of, holds, number_at};
ghost use Rattle.rule_bind.specs.declared.sureness.Test.{Test};

/// What the text of a cube's rules means meets the conditions on the rules of a cube, where the text is within the
/// limits, as each text is that `rule_reader::parse` takes.
pub fn bound_rules_meet_the_conditions()
    ensures { (space : Layout) (cube : ℕ) (text : RuleText) (rules : CubeRules) → IsSpace space
        → cube < length space.cubes → IsWithinLimits text → rules_of space cube text ≡ Ok rules
        → AreCubeRules space cube rules }
{}

/// Where a number stands in place of a table in a comparison, the comparison holds for that number as it does for the
/// table's number of each leaf element that the area has in the table's dimension.
pub fn a_settled_comparison_holds_alike()
    ensures { (space : Layout) (cube : ℕ) (sets : Sets) (test : Test) (place : ℕ) (table : List ℤ) (number : ℤ)
        (dimension : Outline) (set : Option (List ℕ)) (element : ℕ)
        → number_at space cube sets test place table ≡ Some number
        → slice_get (axes space cube) place ≡ Some dimension → slice_get sets place ≡ Some set
        → is_leaf_of dimension element ≡ true → in_set set element ≡ true
        → holds test (number_of table element) ≡ holds test number }
{}

/// A part for the leaf cells of an area, in which comparisons are settled, gives in each of these cells what the same
/// text gives where none is settled, as in a part for consolidated cells.
pub fn a_leaf_part_keeps_its_values()
    ensures { (space : Layout) (cube : ℕ) (area : Area) (tree : Tree) (settled : Formula) (cell : ℕ)
        (named : Reference → Value) (others : Others)
        → IsCell space cell → cube_of space cell ≡ cube → is_leaf_cell space cell ≡ true
        → in_area space area cell ≡ true → ((place : ℕ) → others.own place ≡ element_at space cell place)
        → part_of space cube area.sets tree ≡ Ok settled
        → (plain : Formula) × (part_of space cube [] tree ≡ Ok plain)
        × (formula_value named others settled ≡ formula_value named others plain) }
{}
