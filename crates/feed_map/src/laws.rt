ghost use Rattle.std.specs.Prelude.{◌≡◌, ℕ, true, None, List, Contains};
ghost use Rattle.cube_fixed.specs.Arithmetic.{zero_value};
ghost use Rattle.cube_space.specs.Cells.{IsSpace, IsCell, is_leaf_cell};
ghost use Rattle.cell_store.specs.declared.entry.Entry.{Entry};
ghost use Rattle.rule_laws.specs.RuleSystem.{IsLeafCell, dense_value};
ghost use Rattle.rule_laws.specs.OrderByPlace.{IsOrderedByPlace};
ghost use Rattle.rule_laws.specs.Cover.{IsCovered};
ghost use Rattle.rule_model.specs.BoundModel.{BoundModel};
ghost use Rattle.rule_model.specs.Conditions.{AreRules};
ghost use Rattle.rule_model.specs.System.{system_of, positions_of};
ghost use Rattle.stored_laws.specs.Stored.{stored_in};
ghost use Rattle.feed_map.specs.FedCells.{AreFedCells};

/// Fed cells are leaf cells of the model.
pub fn fed_cells_are_leaf_cells()
    ensures cell { (m : BoundModel) (entries : List Entry) (cells : List ℕ) → IsSpace m.space → AreRules m.space m.rules
        → AreFedCells m entries cells → (c : ℕ) → Contains cells c → IsCell m.space c }
    ensures leaf { (m : BoundModel) (entries : List Entry) (cells : List ℕ) → IsSpace m.space → AreRules m.space m.rules
        → AreFedCells m entries cells → (c : ℕ) → Contains cells c → is_leaf_cell m.space c ≡ true }
{}

/// Where the order check and the feeder check hold, a leaf cell that is neither stored nor among the fed cells has the
/// value 0.
pub fn cells_off_the_map_are_zero()
    ensures { (m : BoundModel) (entries : List Entry) (cells : List ℕ) → IsSpace m.space → AreRules m.space m.rules
        → IsOrderedByPlace (system_of m) (positions_of m) → IsCovered (system_of m) → AreFedCells m entries cells
        → (c : ℕ) → IsLeafCell (system_of m) c → stored_in entries c ≡ None → (Contains cells c → ⊥)
        → dense_value (system_of m) (stored_in entries) c ≡ zero_value }
{}
