ghost use Rattle.std.specs.Prelude.{◌≡◌, IfSome};
ghost use Rattle.cube_space.specs.Layout.{axes};
ghost use Rattle.rule_model.specs.Conditions.{IsArea};
ghost use Rattle.cover_laws.specs.Looking.{all_named};
ghost use Rattle.cover_laws.specs.Covered.{are_sources};
ghost use Rattle.feed_cover.specs.Views.{look_of, IsView, IsSourced};
ghost use Rattle.feed_cover.specs.Answers.{AreAnswers};

use crate::answers::CoverAnswers;
use crate::named::name_sources;
use crate::reference_view::ReferenceView;
use feed_sources::is_same_area;
use rule_model::{Area, Model};

/// An area of a feeder, and whether each leaf below what the reference names is among its sources.
#[derive(Clone, Copy)]
pub struct Sourced<'a> {
    pub area: &'a Area,
    pub is: bool,
}

/// Whether each leaf below what the reference names is among the sources of a feeder of this area. A feeder statement
/// has a feeder for each of its targets, so what is known of the last area is not worked out again.
pub fn has_sources<'a>(
    model: &'a Model,
    view: ReferenceView,
    area: &'a Area,
    known: &mut Option<Sourced<'a>>,
    answers: &mut CoverAnswers<'a>,
) -> bool
    requires view { IsView model.now view }
    requires area { IsArea model.now.space view.reference.now.cube area.now }
    requires known { IfSome known.old (IsSourced model.now view) }
    requires answers { AreAnswers model.now view.cube answers.old }
    ensures sources { result ≡ all_named (look_of model.now view.entry)
        (are_sources (axes model.now.space view.entry.reference.now.cube) area.now.sets) 0
        view.entry.reference.now.args }
    ensures known { IfSome known.new (IsSourced model.now view.entry) }
    ensures answers { AreAnswers model.now view.entry.cube answers.new }
{
    if let Some(last) = *known
        && is_same_area(last.area, area)
    {
        return last.is;
    }
    let is = name_sources(model, view, area, 0, answers);
    *known = Some(Sourced { area, is });
    is
}
