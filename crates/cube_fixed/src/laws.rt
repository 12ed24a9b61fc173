ghost use Rattle.std.specs.Prelude.{◌≡◌, ◌≢◌, ℤ, pos, neg_ℤ};
ghost use Rattle.cube_fixed.specs.declared.value.Value.{Value};
ghost use Rattle.cube_fixed.specs.declared.value.Value.TheVariants.{Num};
ghost use Rattle.cube_fixed.specs.Range.{IsInRange};
ghost use Rattle.cube_fixed.specs.Arithmetic.{zero_value, opposite_of, product_of};
ghost use Rattle.cube_fixed.specs.Division.{quotient_of, safe_quotient_of, remainder_of};
ghost use Rattle.cube_fixed.specs.Places.{rounded_to};
ghost use Rattle.cube_fixed.specs.Laws.{PairOfZerosGivesZero, ZeroGivesZero};

/// What 0 gives in each operation: what sparse evaluation stands on, since it leaves out what is 0.
/// It does nothing when it runs.
pub fn laws_of_zero()
    ensures zero_times { (v : Value) → product_of zero_value v ≡ zero_value }
    ensures times_zero { (v : Value) → product_of v zero_value ≡ zero_value }
    ensures zero_divided { (k : ℤ) → k ≢ pos 0 → quotient_of zero_value (Num k) ≡ zero_value }
    ensures zero_safely_divided { (v : Value) → safe_quotient_of zero_value v ≡ zero_value }
    ensures safely_divided_by_zero { (v : Value) → safe_quotient_of v zero_value ≡ zero_value }
    ensures zero_remainder { (k : ℤ) → k ≢ pos 0 → remainder_of zero_value (Num k) ≡ zero_value }
    ensures zero_rounded { (n : ℤ) → rounded_to zero_value (Num n) ≡ zero_value }
    ensures of_two_zeros { PairOfZerosGivesZero }
    ensures of_zero { ZeroGivesZero }
{}

/// `-k` of a number in range is its opposite, and never `Over`. It does nothing when it runs.
pub fn law_of_opposites()
    ensures { (k : ℤ) → IsInRange k → opposite_of (Num k) ≡ Num (neg_ℤ k) }
{}
