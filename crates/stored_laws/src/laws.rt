ghost use Rattle.std.specs.Prelude.{◌≡◌, ℕ, List, true, false, None, All};
ghost use Rattle.cube_fixed.specs.Arithmetic.{fit};
ghost use Rattle.cube_fixed.specs.declared.value.Value.{Value};
ghost use Rattle.cube_fixed.specs.declared.value.Value.TheVariants.{Num};
ghost use Rattle.cube_space.specs.Cells.{is_leaf_cell};
ghost use Rattle.cell_store.specs.declared.entry.Entry.{Entry};
ghost use Rattle.cell_store.specs.Entries.{IsStore, number_at};
ghost use Rattle.rule_laws.specs.RuleSystem.{IsCell, SolvesRules, base, governing};
ghost use Rattle.rule_model.specs.BoundModel.{BoundModel};
ghost use Rattle.rule_model.specs.Weights.{leaves_below};
ghost use Rattle.rule_model.specs.System.{system_of};
ghost use Rattle.stored_laws.specs.Stored.{stored_in, AreLeafEntries, HaveStored, sum_of_entries};

/// What a cell has where no statement governs it: a leaf cell its stored number, 0 where nothing is stored; a
/// consolidated cell the sum over the entries, each as often as its cell counts in this one, exact and tested once at
/// its end, where each leaf cell below it has what is stored there.
pub fn sums_over_entries_are_sums_below()
    ensures leaf { (m : BoundModel) (entries : List Entry) (table : ℕ → Value) (c : ℕ)
        → is_leaf_cell m.space c ≡ true
        → base (system_of m) (stored_in entries) table c ≡ Num (number_at entries c) }
    ensures consolidated { (m : BoundModel) (entries : List Entry) (table : ℕ → Value) (c : ℕ)
        → IsStore entries → AreLeafEntries m.space entries → HaveStored entries table (leaves_below m.space c)
        → is_leaf_cell m.space c ≡ false
        → base (system_of m) (stored_in entries) table c ≡ fit (sum_of_entries m.space c entries) }
{}

/// In a solution of the rule equations a cell has that where no statement governs it, nor any leaf cell below it.
pub fn ungoverned_cells_have_what_is_stored()
    ensures leaf { (m : BoundModel) (entries : List Entry) (table : ℕ → Value) (c : ℕ)
        → SolvesRules (system_of m) (stored_in entries) table → IsCell (system_of m) c
        → governing (system_of m) c ≡ None
        → is_leaf_cell m.space c ≡ true → table c ≡ Num (number_at entries c) }
    ensures consolidated { (m : BoundModel) (entries : List Entry) (table : ℕ → Value) (c : ℕ)
        → IsStore entries → AreLeafEntries m.space entries
        → SolvesRules (system_of m) (stored_in entries) table → IsCell (system_of m) c
        → governing (system_of m) c ≡ None
        → All (λ pair. governing (system_of m) pair.0 ≡ None) (leaves_below m.space c)
        → is_leaf_cell m.space c ≡ false → table c ≡ fit (sum_of_entries m.space c entries) }
{}
