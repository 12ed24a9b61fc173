ghost use Rattle.std.specs.Prelude.{◌≡◌, ◌≢◌, ◌<◌, ℕ, ℤ, pos, ◌-ℤ◌, ◌*ℤ◌, unsigned_abs, None, List, map, Contains};
ghost use Rattle.std.specs.List.{AllZip};
ghost use Rattle.cube_fixed.specs.Range.{IsInRange};
ghost use Rattle.cube_fixed.specs.declared.value.Value.{Value};
ghost use Rattle.cube_fixed.specs.declared.value.Value.TheVariants.{Num};
ghost use Rattle.cell_store.specs.declared.entry.Entry.{Entry};
ghost use Rattle.cell_store.specs.Entries.{number_at, after_writes};
ghost use Rattle.rule_laws.specs.RuleSystem.{IsCell, SolvesRules};
ghost use Rattle.rule_model.specs.BoundModel.{BoundModel};
ghost use Rattle.rule_model.specs.System.{system_of};
ghost use Rattle.stored_laws.specs.Stored.{stored_in};
ghost use Rattle.cell_spread.specs.declared.writes.How.{How};
ghost use Rattle.cell_spread.specs.Shares.{sum_of, shared_out};
ghost use Rattle.cell_spread.specs.Spread.{refusal_of, writes_of};

/// What cells get is just the amount together.
pub fn shares_are_the_amount()
    ensures { (amount : ℤ) (parts : List (ℕ × ℤ)) → sum_of parts ≢ pos 0
        → sum_of (shared_out amount parts) ≡ amount }
{}

/// Each cell gets what is less than a millionth from its share, which is amount * part / total.
pub fn shares_are_near()
    ensures { (amount : ℤ) (parts : List (ℕ × ℤ)) → sum_of parts ≢ pos 0
        → AllZip (λ part got. (got.0 ≡ part.0)
        × (unsigned_abs ((got.1 *ℤ sum_of parts) -ℤ (amount *ℤ part.1)) < unsigned_abs (sum_of parts)))
        parts (shared_out amount parts) }
{}

/// Where an amount is spread, the cell's value is just the amount in the store that the writes make.
pub fn the_cell_has_the_amount()
    ensures { (m : BoundModel) (entries : List Entry) (cell : ℕ) (amount : ℤ) (how : How) (table : ℕ → Value)
        → IsCell (system_of m) cell → IsInRange amount
        → refusal_of m entries cell amount how ≡ None
        → SolvesRules (system_of m) (stored_in (after_writes entries (writes_of m.space entries cell amount how))) table
        → table cell ≡ Num amount }
{}

/// And each cell that isn't written keeps its number.
pub fn other_cells_keep_theirs()
    ensures { (entries : List Entry) (writes : List (ℕ × ℤ)) (x : ℕ)
        → (Contains (map (λ write. write.0) writes) x → ⊥)
        → number_at (after_writes entries writes) x ≡ number_at entries x }
{}
