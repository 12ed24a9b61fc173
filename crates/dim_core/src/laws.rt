ghost use Rattle.std.specs.Prelude.{◌≡◌, ◌<◌, ℕ, All, None, length, take};
ghost use Rattle.equations.specs.Equations.{Solves};
ghost use Rattle.dim_order.specs.Levels.{level_side};
ghost use Rattle.dim_core.specs.Draft.{Draft, IsFinished};
ghost use Rattle.dim_core.specs.Outline.{Outline, IsElement, names_of, name_of, components_of, component_lists};
ghost use Rattle.dim_core.specs.Outline.{IsDimension, level};
ghost use Rattle.dim_core.specs.Refusal.{refusal_of, finish_refusal_of};
ghost use Rattle.dim_core.specs.Written.{by_name, written};

/// What a finished dimension has may be defined again, in its own order: each element is accepted after those before
/// it, nothing keeps the whole from being finished, and nothing but the same dimension comes of it. A printed dimension
/// reads back by this. It does nothing when it runs.
pub fn laws_of_own_definitions()
    ensures element { (d : Outline) (draft : Draft) (e : ℕ) → IsDimension d → e < length d.elements
        → draft.elements ≡ take e (written d).elements
        → refusal_of draft (name_of d e) (by_name (names_of d.elements) (components_of d e)) ≡ None }
    ensures whole { (d : Outline) → IsDimension d → finish_refusal_of (written d) ≡ None }
    ensures same { (d f : Outline) → IsDimension d → IsFinished (written d) f → f ≡ d }
{}

/// The levels solve their equations: a leaf has level 0, another element one more than the greatest level of a
/// component.
pub fn levels_solve()
    ensures { (d : Outline) → IsDimension d
        → Solves (IsElement d) (level_side (component_lists d.elements)) (level d) }
{}

/// Nothing else does.
pub fn only_levels_solve()
    ensures { (d : Outline) → IsDimension d → (table : ℕ → ℕ)
        → Solves (IsElement d) (level_side (component_lists d.elements)) table
        → (element : ℕ) → IsElement d element → table element ≡ level d element }
{}

/// Levels tell an order with components first: a component has a smaller level than what it is a component of.
pub fn components_have_smaller_levels()
    ensures { (d : Outline) → IsDimension d → (element : ℕ) → IsElement d element
        → All (λ part. level d part.0 < level d element) (components_of d element) }
{}
