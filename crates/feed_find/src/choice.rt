ghost use Rattle.std.specs.Prelude.{◌≡◌, IfOk};
ghost use Rattle.rule_model.specs.Conditions.{IsReference, IsFeeder};
ghost use Rattle.feed_find.specs.Views.{IsAsked, IsChoice, IsKept, choose_from};

use crate::asked::Asked;
use crate::kept::Kept;
use feed_cover::{has_cover, names_no_governed};
use feed_turn::{TurnView, turned_feeder};
use rule_laws::Reference;
use rule_model::Feeder;
use std::alloc::{AllocError, Global};

/// What can be done about a reference.
#[derive(Drop)]
pub enum Choice {
    /// A feeder of the model covers it.
    Covered,
    /// This one would, its own: the reference turned round.
    Turned(Feeder),
    /// None covers it.
    Missing,
}

/// What can be done about a reference from an area.
#[tactic(auto, unfolding(crate::specs::Choosing::choice, cover_laws::specs::Covered::is_covered))]
pub fn choose<'a>(
    alloc: Global,
    asked: Asked<'a>,
    reference: &'a Reference,
    kept: &mut Kept<'a>,
) -> Result<Choice, AllocError>
    requires asked { IsAsked asked }
    requires reference { IsReference asked.model.now.space asked.cube reference.now }
    requires kept { IsKept asked.model.now asked.cube kept.old }
    ensures choice { IfOk result (λ found. found ≡ choose_from asked.entry reference.now) }
    ensures valid { IfOk result (IsChoice asked.entry.model.now.space reference.now.cube) }
    ensures kept { IsKept asked.entry.model.now asked.entry.cube kept.new }
{
    let _space = asked.model.space();
    let Asked { model, cube, area } = asked;
    if !names_no_governed(model, cube, area, reference) {
        return Ok(Choice::Missing);
    }
    if has_cover(model, cube, area, reference, &mut kept.answers) {
        return Ok(Choice::Covered);
    }
    let view = TurnView {
        model,
        cube,
        area,
        reference,
    };
    match turned_feeder(alloc, view, 0, &mut kept.turns)? {
        Some(feeder) => Ok(Choice::Turned(feeder)),
        None => Ok(Choice::Missing),
    }
}
