ghost use Rattle.std.specs.Prelude.{ℕ, List};
ghost use Rattle.least_ranks.specs.Graph.{Fits};
ghost use Rattle.arrow_laws.specs.Nodes.{NodeRanks};
ghost use Rattle.arrow_laws.specs.Arrows.{FitArrows};
ghost use Rattle.order_find.specs.Slots.{Plan, arrows_of};
ghost use Rattle.order_find.specs.PlanOfAll.{IsPlanOfAll, AreRanksOf};

/// Where a plan has all that its model reads at the same lag, ranks that fit its graph are, at the nodes of the model,
/// ranks that fit the arrows of the model.
pub fn ranks_of_the_graph_fit_the_model()
    ensures { (p : Plan) (numbered : List ℕ) (ranks : NodeRanks) → IsPlanOfAll p → Fits (arrows_of p) numbered
        → AreRanksOf p numbered ranks → FitArrows p.model ranks }
{}

/// And ranks of those nodes that fit the arrows of the model are, with ranks of the other nodes, ranks that fit the
/// graph.
pub fn ranks_of_the_model_fit_the_graph()
    ensures { (p : Plan) (ranks : NodeRanks) → IsPlanOfAll p → FitArrows p.model ranks
        → (numbered : List ℕ) × Fits (arrows_of p) numbered × AreRanksOf p numbered ranks }
{}
