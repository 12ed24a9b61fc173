ghost use Rattle.std.specs.Prelude.{ℕ, ◌+◌, ◌≤◌, List, length};
ghost use Rattle.cube_space.specs.Layout.{Layout};
ghost use Rattle.sparse_sum.specs.Live.{live_below};

/// There are no more stored or fed leaf cells below a cell than stored and fed cells together.
pub fn live_cells_are_few()
    ensures { (space : Layout) → (stored : List ℕ) → (fed : List ℕ) → (cell : ℕ)
        → length (live_below space stored fed cell) ≤ length stored + length fed }
{}
