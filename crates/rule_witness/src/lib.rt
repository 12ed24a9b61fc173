//! A witness that the premises of the laws of rules (`rule_laws`) can be met, by two cubes that stand together.
#![tactic(auto)]

ghost use Rattle.std.specs.Prelude.{◌≡◌, pos, ◌*◌};
ghost use Rattle.cube_fixed.specs.declared.value.Value.TheVariants.{Num};
ghost use Rattle.cube_fixed.specs.Range.{unit};
ghost use Rattle.rule_laws.specs.RuleSystem.{Stored, dense_value};
ghost use Rattle.rule_laws.specs.Ordered.{IsWellFormed, IsOrdered};
ghost use Rattle.rule_laws.specs.Feeding.{IsFed};
ghost use Rattle.rule_laws.specs.Cover.{IsCovered};
ghost use Rattle.rule_witness.specs.Replenishment.{replenishment, opening, available, purchase};
ghost use Rattle.rule_witness.specs.Replenishment.{carried_over, entered};

/// The premises can be met by an `IF` that compares a reference, `STET`, a total that counts a cell negatively,
/// `CONTINUE` and `ConsolidateChildren` in a sparse cube, beside a dense cube whose rule references that total.
/// 10 units are reserved. Where 40 are carried over, 30 are available, and 70 are purchased; where 25 are entered
/// instead, 85 are. The opening is fed from the closing, the purchase whatever is stored.
pub fn replenishment_meets_the_premises()
    ensures well_formed { IsWellFormed replenishment }
    ensures ordered { IsOrdered replenishment }
    ensures covered { IsCovered replenishment }
    ensures fed { IsFed replenishment carried_over opening }
    ensures dense { (stored : Stored) → IsFed replenishment stored purchase }
    ensures carried { dense_value replenishment carried_over opening ≡ Num (pos (40 * unit)) }
    ensures total { dense_value replenishment carried_over available ≡ Num (pos (30 * unit)) }
    ensures to_purchase { dense_value replenishment carried_over purchase ≡ Num (pos (70 * unit)) }
    ensures stet { dense_value replenishment entered opening ≡ Num (pos (25 * unit)) }
    ensures more_to_purchase { dense_value replenishment entered purchase ≡ Num (pos (85 * unit)) }
{}
