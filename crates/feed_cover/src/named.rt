ghost use Rattle.std.specs.Prelude.{◌≡◌, ℕ, ◌<◌, ◌≤◌, length, drop, slice_index_or, IfSome};
ghost use Rattle.cube_space.specs.Layout.{axes, sizes};
ghost use Rattle.rule_laws.specs.declared.reference.Arg.TheVariants.{Fixed};
ghost use Rattle.rule_model.specs.Conditions.{IsArea};
ghost use Rattle.order_laws.specs.Scales.{is_leaf_element};
ghost use Rattle.cover_laws.specs.Looking.{each_named, all_named};
ghost use Rattle.cover_laws.specs.Covered.{are_sources};
ghost use Rattle.feed_cover.specs.Views.{look_of, IsView};
ghost use Rattle.feed_cover.specs.Answers.{AreAnswers, IsSourceQuestion};

use crate::answers::{Answer, CoverAnswers};
use crate::each::each_narrow;
use crate::question::{Question, Test, question_of};
use crate::reference_view::ReferenceView;
use crate::table::is_shared;
use crate::test::ElementTest;
use crate::tests::{AreSources, IsLeaf, Sent};
use rule_laws::Arg;
use rule_model::{Area, Model};

/// Whether each element that the argument at this place names from narrow elements passes.
pub fn each_named<'a, T: ElementTest>(
    model: &'a Model,
    view: ReferenceView<'a>,
    place: usize,
    test: &'a T,
) -> bool
    requires view { IsView model.now view }
    requires place { place < length view.reference.now.args }
    requires test { (element : ℕ) → element < slice_index_or (sizes model.now.space view.reference.now.cube) place 0
        → T.may_ask test.now element }
    ensures { result ≡ each_named (look_of model.now view.entry) (T.passes test.now)
        (slice_index_or view.entry.reference.now.args place (Fixed 0)) }
{
    match &view.reference.args.as_slice()[place] {
        Arg::Fixed(target) => test.passes(*target),
        Arg::Moved { from, to } => {
            let sent = Sent { to, test };
            each_narrow(model, view, *from as usize, &sent)
        }
    }
}

// Whether each element that the argument at this place names is a leaf. From a leaf, one that keeps the element does.
fn names_leaves<'a>(model: &'a Model, view: ReferenceView<'a>, place: usize) -> bool
    requires view { IsView model.now view }
    requires place { place < length view.reference.now.args }
    ensures { result ≡ each_named (look_of model.now view.entry)
        (is_leaf_element (axes model.now.space view.entry.reference.now.cube) place)
        (slice_index_or view.entry.reference.now.args place (Fixed 0)) }
{
    let cube = view.reference.cube;
    match &view.reference.args.as_slice()[place] {
        Arg::Moved { from, to }
            if to.is_identity() && is_shared(model, view.cube, *from as usize, cube, place) => {
            true
        }
        _ => each_named(model, view, place, &IsLeaf { model, cube, place }),
    }
}

/// Whether each element that an argument from this place on names is a leaf.
#[cycle(name_leaves)]
pub fn name_leaves<'a>(model: &'a Model, view: ReferenceView<'a>, place: usize) -> bool
    requires view { IsView model.now view }
    requires place { place ≤ length view.reference.now.args }
    ensures { result ≡ all_named (look_of model.now view.entry)
        (is_leaf_element (axes model.now.space view.entry.reference.now.cube)) place
        (drop place view.entry.reference.now.args) }
{
    if place == view.reference.args.as_slice().len() {
        return true;
    }
    names_leaves(model, view, place) && name_leaves(model, view, place + 1)
}

// Whether each leaf that counts in an element which the argument at this place names is among the sources of a feeder
// of this area. Where it has all elements of the dimension, none needs to be looked at.
fn names_sources<'a>(
    model: &'a Model,
    view: ReferenceView,
    area: &'a Area,
    place: usize,
    answers: &mut CoverAnswers<'a>,
) -> bool
    requires view { IsView model.now view }
    requires area { IsArea model.now.space view.reference.now.cube area.now }
    requires place { place < length view.reference.now.args }
    requires answers { AreAnswers model.now view.cube answers.old }
    ensures sources { result ≡ each_named (look_of model.now view.entry)
        (are_sources (axes model.now.space view.entry.reference.now.cube) area.now.sets place)
        (slice_index_or view.entry.reference.now.args place (Fixed 0)) }
    ensures answers { AreAnswers model.now view.entry.cube answers.new }
{
    if area.sets.as_slice()[place].is_none() {
        return true;
    }
    let Some(asked) = source_question(model, view, area, place) else {
        return are_named_sources(model, view, area, place);
    };
    if let Some(known) = answers.recalled(asked) {
        return known.is;
    }
    let is = are_named_sources(model, view, area, place);
    answers.keep(Answer { asked, is });
    is
}

// The same, element by element.
fn are_named_sources<'a>(
    model: &'a Model,
    view: ReferenceView<'a>,
    area: &'a Area,
    place: usize,
) -> bool
    requires view { IsView model.now view }
    requires area { IsArea model.now.space view.reference.now.cube area.now }
    requires place { place < length view.reference.now.args }
    ensures { result ≡ each_named (look_of model.now view.entry)
        (are_sources (axes model.now.space view.entry.reference.now.cube) area.now.sets place)
        (slice_index_or view.entry.reference.now.args place (Fixed 0)) }
{
    let test = AreSources {
        model,
        cube: view.reference.cube,
        place,
        area,
    };
    each_named(model, view, place, &test)
}

// The question that is so asked, where the answer serves for other statements too.
fn source_question<'a>(
    model: &Model,
    view: ReferenceView,
    area: &'a Area,
    place: usize,
) -> Option<Question<'a>>
    requires view { IsView model.now view }
    requires area { IsArea model.now.space view.reference.now.cube area.now }
    requires place { place < length view.reference.now.args }
    ensures { IfSome result (IsSourceQuestion view.entry area.now place) }
{
    let args = view.reference.args.as_slice();
    let sets = area.sets.as_slice();
    match (&args[place], &sets[place]) {
        (Arg::Moved { from, to }, Some(listed)) => {
            let listed = listed.as_slice();
            let test = Test::Listed(listed);
            question_of(model, view, *from as usize, place, to, test)
        }
        _ => None,
    }
}

/// Whether each leaf that counts in an element which an argument from this place on names is among the sources of a
/// feeder of this area.
#[cycle(name_sources)]
pub fn name_sources<'a>(
    model: &'a Model,
    view: ReferenceView,
    area: &'a Area,
    place: usize,
    answers: &mut CoverAnswers<'a>,
) -> bool
    requires view { IsView model.now view }
    requires area { IsArea model.now.space view.reference.now.cube area.now }
    requires place { place ≤ length view.reference.now.args }
    requires answers { AreAnswers model.now view.cube answers.old }
    ensures sources { result ≡ all_named (look_of model.now view.entry)
        (are_sources (axes model.now.space view.entry.reference.now.cube) area.now.sets) place
        (drop place view.entry.reference.now.args) }
    ensures answers { AreAnswers model.now view.entry.cube answers.new }
{
    if place == view.reference.args.as_slice().len() {
        return true;
    }
    names_sources(model, view, area, place, answers)
        && name_sources(model, view, area, place + 1, answers)
}
