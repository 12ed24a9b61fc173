ghost use Rattle.std.specs.Prelude.{◌≡◌, ℕ, ◌<◌, Some, IsTrue, length};
ghost use Rattle.cube_space.specs.Cells.{IsSpace};
ghost use Rattle.rule_laws.specs.declared.reference.Reference.{Reference};
ghost use Rattle.rule_model.specs.declared.area.Area.{Area};
ghost use Rattle.rule_model.specs.declared.rules.Feeder.{Feeder};
ghost use Rattle.rule_model.specs.BoundModel.{BoundModel};
ghost use Rattle.rule_model.specs.Conditions.{IsArea, IsReference};
ghost use Rattle.cover_laws.specs.Covered.{covers};
ghost use Rattle.feed_turn.specs.Turning.{turned_feeder};

/// The feeder that is found for a reference from an area of a cube covers it, as the feeder check decides it.
pub fn turned_feeders_cover()
    ensures { (m : BoundModel) (cube : ℕ) (area : Area) (r : Reference) (statement : ℕ) (feeder : Feeder)
        → IsSpace m.space → cube < length m.space.cubes → IsArea m.space cube area → IsReference m.space cube r
        → turned_feeder (record { space = m.space; cube = cube; area = area; reference = r }) statement ≡ Some feeder
        → IsTrue (covers m cube area r r.cube feeder) }
{}
