ghost use Rattle.std.specs.Prelude.{◌≡◌, ℕ, ◌<◌, true, length, IfSome, IsTrue, IsFalse, All, Some};
ghost use Rattle.std.specs.List.{list_any};
ghost use Rattle.cube_space.specs.Layout.{axes};
ghost use Rattle.rule_model.specs.declared.filed.FixedLeaf.{FixedLeaf as AnyLeaf};
ghost use Rattle.rule_model.specs.BoundModel.{rules_of};
ghost use Rattle.rule_model.specs.Conditions.{IsFeeder};
ghost use Rattle.cover_laws.specs.Looking.{is_possible};
ghost use Rattle.cover_laws.specs.Covered.{feeds_all};
ghost use Rattle.feed_cover.specs.declared.reference_view.Counted.TheVariants.{Leaves};
ghost use Rattle.feed_cover.specs.Views.{look_of, IsView, IsSourced};
ghost use Rattle.feed_cover.specs.Answers.{AreAnswers};
ghost use Rattle.feed_cover.specs.Asked.{feeds, feeds_at, NoneFeeds};

use crate::answers::CoverAnswers;
use crate::each::only_narrow;
use crate::reach::reaches_all;
use crate::reference_view::ReferenceView;
use crate::sourced::{Sourced, has_sources};
use ref_order::axis_count;
use rule_model::{Feeder, FiledFeeder, FixedLeaf, Model};

// Whether a feeder of a cube feeds the leaf cells of the area from each leaf cell at or below what the reference names,
// where there is such a cell.
#[tactic(auto, unfolding(cover_laws::specs::Covered::feeds_all))]
fn feeds_all<'a>(
    model: &'a Model,
    view: ReferenceView,
    own: u32,
    feeder: &'a Feeder,
    known: &mut Option<Sourced<'a>>,
    answers: &mut CoverAnswers<'a>,
) -> bool
    requires view { IsView model.now view }
    requires counted { view.counted ≡ Leaves }
    requires answers { AreAnswers model.now view.cube answers.old }
    requires feeder { IsFeeder model.now.space own feeder.now }
    requires known { IfSome known.old (IsSourced model.now view) }
    ensures feeds { result ≡ feeds_all model.now view.entry.cube view.entry.area.now view.entry.reference.now own
        feeder.now }
    ensures known { IfSome known.new (IsSourced model.now view.entry) }
    ensures answers { AreAnswers model.now view.entry.cube answers.new }
{
    if own != view.reference.cube || feeder.target.cube != view.cube {
        return false;
    }
    if !reaches_all(model, view, &feeder.target, answers) {
        return false;
    }
    has_sources(model, view, feeder.area.get(), known, answers)
}

// Whether it is known that some feeder of a cube does, since the one at this place does.
fn knows_feeder<'a>(
    model: &'a Model,
    view: ReferenceView,
    own: u32,
    place: usize,
    answers: &mut CoverAnswers<'a>,
) -> bool
    requires view { IsView model.now view }
    requires counted { view.counted ≡ Leaves }
    requires answers { AreAnswers model.now view.cube answers.old }
    requires own { own < length model.now.space.cubes }
    ensures known { IsTrue result → list_any (feeds_all model.now view.entry.cube view.entry.area.now
        view.entry.reference.now own) (rules_of model.now own).feeders ≡ true }
    ensures answers { AreAnswers model.now view.entry.cube answers.new }
{
    let _space = model.space();
    let feeders = model.rules(own).feeders.as_slice();
    if place >= feeders.len() {
        return false;
    }
    let mut known = None;
    feeds_all(model, view, own, &feeders[place], &mut known, answers)
}

// Whether one of these feeders of a cube does.
fn some_feeds<'a>(
    model: &'a Model,
    view: ReferenceView,
    own: u32,
    group: &[FiledFeeder],
    answers: &mut CoverAnswers<'a>,
) -> bool
    requires view { IsView model.now view }
    requires counted { view.counted ≡ Leaves }
    requires answers { AreAnswers model.now view.cube answers.old }
    requires own { own < length model.now.space.cubes }
    requires group { All (λ filed. filed.place < length (rules_of model.now own).feeders) group.now }
    ensures some { result ≡ list_any (λ filed. feeds_at model.now view.entry own filed.place) group.now }
    ensures answers { AreAnswers model.now view.entry.cube answers.new }
{
    let _space = model.space();
    let feeders = model.rules(own).feeders.as_slice();
    let mut known = None;
    'each: for k in 0..group.len() {
        let place = group[k].place as usize;
        if feeds_all(model, view, own, &feeders[place], &mut known, answers) {
            answers.hints.remember(view.reference, place);
            return true;
        }
    }
    false
}

// Whether a feeder of a cube does that is filed by this leaf, or by none.
fn filed_feeds<'a>(
    model: &'a Model,
    view: ReferenceView,
    own: u32,
    leaf: Option<FixedLeaf>,
    answers: &mut CoverAnswers<'a>,
) -> bool
    requires view { IsView model.now view }
    requires counted { view.counted ≡ Leaves }
    requires answers { AreAnswers model.now view.cube answers.old }
    requires own { own < length model.now.space.cubes }
    ensures some { IsTrue result → list_any (feeds model.now view.entry own) (rules_of model.now own).feeders ≡ true }
    ensures none { IsFalse result → NoneFeeds model.now view.entry own leaf }
    ensures answers { AreAnswers model.now view.entry.cube answers.new }
{
    let group = model.feeders_filed(own, view.cube, leaf);
    some_feeds(model, view, own, group, answers)
}

// Whether a feeder of a cube does that is filed by a leaf of this dimension. Such a feeder feeds no other leaf of the
// dimension, so it is asked only where the area has no other narrow element there.
fn feeds_in_dim<'a>(
    model: &'a Model,
    view: ReferenceView,
    own: u32,
    dim: usize,
    answers: &mut CoverAnswers<'a>,
) -> bool
    requires view { IsView model.now view }
    requires counted { view.counted ≡ Leaves }
    requires answers { AreAnswers model.now view.cube answers.old }
    requires possible { is_possible (look_of model.now view) ≡ true }
    requires own { own < length model.now.space.cubes }
    requires dim { dim < length (axes model.now.space view.cube) }
    ensures some { IsTrue result → list_any (feeds model.now view.entry own) (rules_of model.now own).feeders ≡ true }
    ensures none { IsFalse result → (leaf : AnyLeaf) → leaf.dim ≡ dim
        → NoneFeeds model.now view.entry own (Some leaf) }
    ensures answers { AreAnswers model.now view.entry.cube answers.new }
{
    let _space = model.space();
    match only_narrow(model, view, dim) {
        Some(element) => {
            let leaf = FixedLeaf {
                dim: dim as u32,
                element,
            };
            filed_feeds(model, view, own, Some(leaf), answers)
        }
        None => false,
    }
}

// Whether a feeder of a cube does that is filed by a leaf.
fn feeds_by_leaf<'a>(
    model: &'a Model,
    view: ReferenceView,
    own: u32,
    answers: &mut CoverAnswers<'a>,
) -> bool
    requires view { IsView model.now view }
    requires counted { view.counted ≡ Leaves }
    requires answers { AreAnswers model.now view.cube answers.old }
    requires possible { is_possible (look_of model.now view) ≡ true }
    requires own { own < length model.now.space.cubes }
    ensures some { IsTrue result → list_any (feeds model.now view.entry own) (rules_of model.now own).feeders ≡ true }
    ensures none { IsFalse result → (leaf : AnyLeaf) → NoneFeeds model.now view.entry own (Some leaf) }
    ensures answers { AreAnswers model.now view.entry.cube answers.new }
{
    let _space = model.space();
    'each: for dim in 0..axis_count(model, view.cube) {
        if feeds_in_dim(model, view, own, dim, answers) {
            return true;
        }
    }
    false
}

/// Whether some feeder of a cube does. The one that covered the last reference like this is asked first, then those
/// that are filed by the leaves that the area has alone, and last those that are filed by none.
pub fn feeds_from<'a>(
    model: &'a Model,
    view: ReferenceView,
    own: u32,
    answers: &mut CoverAnswers<'a>,
) -> bool
    requires view { IsView model.now view }
    requires counted { view.counted ≡ Leaves }
    requires answers { AreAnswers model.now view.cube answers.old }
    requires possible { is_possible (look_of model.now view) ≡ true }
    requires own { own < length model.now.space.cubes }
    ensures feeds { result ≡ list_any (feeds_all model.now view.entry.cube view.entry.area.now
        view.entry.reference.now own) (rules_of model.now own).feeders }
    ensures answers { AreAnswers model.now view.entry.cube answers.new }
{
    let place = answers.hints.feeder_for(view.reference);
    if knows_feeder(model, view, own, place, answers) {
        return true;
    }
    if feeds_by_leaf(model, view, own, answers) {
        return true;
    }
    filed_feeds(model, view, own, None, answers)
}
