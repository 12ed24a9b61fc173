ghost use Rattle.std.specs.Prelude.{◌≡◌, ◌≢◌, ℕ, ℤ, pos, []};
ghost use Rattle.equations.specs.Equations.{Solves};
ghost use Rattle.dim_core.specs.Outline.{Outline, IsDimension, components_of};
ghost use Rattle.dim_core.specs.Outline.{IsElement};
ghost use Rattle.dim_weights.specs.Coefficients.{coef_side, coef};

/// The coefficients of a leaf solve its equations: in a leaf only it itself counts, once, and in another element it
/// counts the sum over the components of the weight times what it counts there.
pub fn coefficients_solve()
    ensures { (d : Outline) → IsDimension d → (leaf : ℕ)
        → Solves (IsElement d) (coef_side d leaf) (λ element. coef d element leaf) }
{}

/// Nothing else does.
pub fn only_coefficients_solve()
    ensures { (d : Outline) → IsDimension d → (leaf : ℕ) → (table : ℕ → ℤ)
        → Solves (IsElement d) (coef_side d leaf) table
        → (element : ℕ) → IsElement d element → table element ≡ coef d element leaf }
{}

/// Only leaves count.
pub fn only_leaves_count()
    ensures { (d : Outline) → IsDimension d → (leaf : ℕ) → components_of d leaf ≢ []
        → (element : ℕ) → IsElement d element → coef d element leaf ≡ pos 0 }
{}
