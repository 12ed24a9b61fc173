//! The laws of orders that are found: that the arrows between the nodes of a model are made dimension by dimension, and
//! that ranks which fit them order the model.
//!
//! A node is a cube, an element of its last dimension and, where consolidated cells of the cube have positions of their
//! own, the kind of cell. `specs/Arrows.antt` has the arrows, over every cell;
//! `specs/ByDimension.antt` decides them by the elements of single dimensions; `specs/Ranked.antt` has the model with
//! the orders that ranks make.
#![tactic(auto)]

ghost use Rattle.std.specs.Prelude.{◌≡◌, ℕ, ◌<◌, Bool, true, false, Some, ◌↔◌, length, slice_get, IsTrue, All};
ghost use Rattle.dim_core.specs.Outline.{Outline};
ghost use Rattle.cube_space.specs.Layout.{axes};
ghost use Rattle.cube_space.specs.Cells.{IsSpace};
ghost use Rattle.rule_laws.specs.Meaning.{Precedent};
ghost use Rattle.rule_laws.specs.OrderByPlace.{IsOrderedByPlace};
ghost use Rattle.rule_model.specs.declared.rules.Statement.{Statement};
ghost use Rattle.rule_model.specs.BoundModel.{BoundModel};
ghost use Rattle.rule_model.specs.System.{system_of, positions_of};
ghost use Rattle.rule_model.specs.Conditions.{IsArea, IsPrecedent, AreRules};
ghost use Rattle.arrow_laws.specs.Nodes.{Node, NodeRanks, node_kind, last_of, ranks_in};
ghost use Rattle.arrow_laws.specs.Arrows.{IsLagged, IsLevel, IsWeak, IsJoined, IsLevelThroughout, FitArrows};
ghost use Rattle.arrow_laws.specs.Ranked.{HasOneLag, AreNodeRanks, HoldsLeavesOf, ranked};
ghost use Rattle.arrow_laws.specs.ByDimension.{is_lagged, is_level, is_weak, IsJoinedByDimension};

/// Of a statement of a cube, a kind of cell and what a formula reads: whether that is lagged, level or weak is decided
/// by the most that a cell which is read has more than its cell.
pub fn lag_is_decided_by_dimension()
    ensures { (m : BoundModel) (cube : ℕ) (s : Statement) (kind : Bool) (p : Precedent) → IsSpace m.space
        → AreRules m.space m.rules → cube < length m.space.cubes → IsArea m.space cube s.area
        → IsPrecedent m.space cube p
        → (IsTrue (is_lagged m cube s.area kind p) ↔ IsLagged m cube s kind p)
        × (IsTrue (is_level m cube s.area kind p) ↔ IsLevel m cube s kind p)
        × (IsTrue (is_weak m cube s.area kind p) ↔ IsWeak m cube s kind p) }
{}

/// And whether some cell of one node reads a cell of another is decided by the elements of single dimensions.
pub fn arrows_are_made_by_dimension()
    ensures { (m : BoundModel) (cube : ℕ) (s : Statement) (kind : Bool) (p : Precedent) (from to : Node)
        → IsSpace m.space → AreRules m.space m.rules → cube < length m.space.cubes → IsArea m.space cube s.area
        → IsPrecedent m.space cube p
        → IsJoinedByDimension m cube s.area kind p from to ↔ IsJoined m cube s kind p from to }
{}

/// Where ranks fit the arrows of a model whose cubes have the same first position for cells of both kinds, and are
/// within the limit, what holds of the rules of the model holds with the orders that they make.
pub fn fitting_ranks_make_orders()
    ensures { (m : BoundModel) (ranks : NodeRanks) → IsSpace m.space → AreRules m.space m.rules
        → All HasOneLag m.rules → FitArrows m ranks → AreNodeRanks m ranks
        → AreRules m.space (ranked m ranks).rules }
{}

/// Where nothing is read at a greater lag, such a model is ordered by the lag and then ranks that fit its arrows.
pub fn fitting_ranks_order_a_model()
    ensures { (m : BoundModel) (ranks : NodeRanks) → IsSpace m.space → AreRules m.space m.rules
        → All HasOneLag m.rules → IsLevelThroughout m → FitArrows m ranks
        → IsOrderedByPlace (system_of (ranked m ranks)) (positions_of (ranked m ranks)) }
{}

/// And by such ranks, no element of a last dimension ranks lower for consolidated cells than a leaf that counts in it
/// does for leaf cells.
pub fn fitting_ranks_hold_leaves()
    ensures { (m : BoundModel) (ranks : NodeRanks) (cube : ℕ) (d : Outline) → IsSpace m.space
        → FitArrows m ranks → cube < length m.space.cubes
        → slice_get (axes m.space cube) (last_of m.space cube) ≡ Some d
        → HoldsLeavesOf d (ranks_in ranks true cube) (ranks_in ranks (node_kind m cube false) cube) }
{}
