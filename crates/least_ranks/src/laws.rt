ghost use Rattle.std.specs.Prelude.{ℕ, List};
ghost use Rattle.least_ranks.specs.Graph.{Arrows, Fits, IsClosedWalk};
ghost use Rattle.least_ranks.specs.declared.arrow.Step.{Step};

/// Where a walk with a strict arrow leads back to where it begins, no ranks fit.
pub fn a_closed_walk_fits_no_ranks()
    ensures { (graph : Arrows) (steps : List Step) (ranks : List ℕ)
        → IsClosedWalk graph steps → Fits graph ranks → ⊥ }
{}
