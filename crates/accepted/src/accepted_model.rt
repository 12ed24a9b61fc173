ghost use Rattle.std.specs.Prelude.{◌≡◌, []};
ghost use Rattle.feed_map.specs.FedCells.{IsFeeding};
ghost use Rattle.accepted.specs.Checks.{IsAccepted};

use feed_map::Feeding;
use feed_sources::SourceModel;
use rule_model::Model;

/// A model that deployment has accepted, with what is fed where nothing is stored.
#[derive(Drop)]
pub struct Accepted {
    model: SourceModel,
    feeding: Feeding,
}

impl std::marker::Model for Accepted {
    ghost use Rattle.std.specs.Prelude.{[]};
    ghost use Rattle.rule_model.specs.BoundModel.{BoundModel};
    ghost use Rattle.feed_map.specs.FedCells.{IsFeeding};
    ghost use Rattle.accepted.specs.Checks.{IsAccepted};
    ghost use Rattle.rule_laws.specs.contracts.formula.Formula as formula;
    ghost use Rattle.std.specs.Coded.{codes};

    ghost Value = { BoundModel };

    ghost coded = { Prim.hlevel (codes, formula.the_row.coded) };

    ghost view = { λ a. a.model };

    ghost invariant = { λ a. IsAccepted a.model × IsFeeding a.model [] a.feeding.fed a.feeding.totals };
}

impl Accepted {
    /// The model, which the checks have accepted, with what is fed where nothing is stored.
    pub fn new(model: SourceModel, feeding: Feeding) -> Accepted
        requires accepted { IsAccepted model }
        requires feeding { IsFeeding model [] feeding.fed feeding.totals }
        ensures { result ≡ model }
    {
        Accepted { model, feeding }
    }

    /// The model.
    pub fn model(&self) -> &Model
        ensures model { result.now ≡ self.now }
        ensures accepted { IsAccepted self.now }
    {
        self.model.model()
    }

    /// The model, with what finds the sources of its feeders.
    pub fn sources(&self) -> &SourceModel
        ensures model { result.now ≡ self.now }
    {
        &self.model
    }

    /// What is fed where nothing is stored.
    pub fn feeding(&self) -> &Feeding
        ensures { IsFeeding self.now [] result.now.fed result.now.totals }
    {
        &self.feeding
    }
}
