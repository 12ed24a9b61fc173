ghost use Rattle.std.specs.Prelude.{◌≡◌, ℕ, List, Contains, ◌↔◌};
ghost use Rattle.std.specs.List.Sorted.{IsStrictlyIncreasing};
ghost use Rattle.rule_laws.specs.RuleSystem.{RuleSystem, Stored};
ghost use Rattle.rule_laws.specs.Ordered.{IsWellFormed};
ghost use Rattle.rule_laws.specs.Feeding.{IsFed};
ghost use Rattle.fed_laws.specs.FedCells.{fed_cells};

/// The list of the fed cells rises, and has just the cells that are fed.
pub fn fed_cells_are_a_list()
    ensures rising { (w : RuleSystem) (stored : Stored) → IsStrictlyIncreasing (fed_cells w stored) }
    ensures cells { (w : RuleSystem) (stored : Stored) (c : ℕ) → IsWellFormed w
        → Contains (fed_cells w stored) c ↔ IsFed w stored c }
{}
