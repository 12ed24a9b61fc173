ghost use Rattle.std.specs.Prelude.{◌≡◌, ◌<◌, ◌≤◌, ℕ, Some, IfSome, true, length, drop, slice_index_or};
ghost use Rattle.std.specs.Option.{option_map_or};
ghost use Rattle.cube_space.specs.Layout.{axes, sizes};
ghost use Rattle.rule_laws.specs.declared.reference.Arg.TheVariants.{Fixed, Moved};
ghost use Rattle.rule_model.specs.Conditions.{IsReference};
ghost use Rattle.cover_laws.specs.Looking.{sent, each_narrow};
ghost use Rattle.cover_laws.specs.Covered.{counts_in, each_sent, reaches_from, reaches, all_reach};
ghost use Rattle.feed_cover.specs.Views.{look_of, IsView};
ghost use Rattle.feed_cover.specs.Answers.{AreAnswers, IsBackQuestion};
ghost use Rattle.feed_cover.specs.Tests.{IsBack, IsWay, fixed_reach, is_sent_back};

use crate::answers::{Answer, CoverAnswers};
use crate::back::{Back, reaches_back};
use crate::named::each_named;
use crate::question::{Question, Test, question_of};
use crate::reference_view::ReferenceView;
use crate::shift::shift_of;
use crate::test::ElementTest;
use crate::tests::{SendsOver, StandsOver};
use ref_order::axis;
use rule_laws::{Arg, ElementMap, Reference};
use rule_model::Model;

// Whether each leaf that counts in what a narrow element is sent to is sent back to one over the element. Where that
// rests on the two maps alone, it is worked out once for all statements.
fn comes_back(back: Back, answers: &mut CoverAnswers) -> bool
    requires back { IsBack back }
    requires place { slice_index_or back.view.reference.now.args back.place (Fixed 0) ≡ Moved back.dim back.by.now }
    requires answers { AreAnswers back.model.now back.view.cube answers.old }
    ensures comes { result ≡ each_narrow (look_of back.entry.model.now back.entry.view) back.entry.dim
        (is_sent_back back.entry) }
    ensures answers { AreAnswers back.entry.model.now back.entry.view.cube answers.new }
{
    let Some(asked) = back_question(back) else {
        return reaches_back(back);
    };
    if let Some(known) = answers.recalled(asked) {
        return known.is;
    }
    let is = reaches_back(back);
    answers.keep(Answer { asked, is });
    is
}

// The question that is so asked, where the answer serves for other statements too.
fn back_question<'a>(back: Back) -> Option<Question<'a>>
    requires back { IsBack back }
    ensures { IfSome result (IsBackQuestion back.entry) }
{
    let len = axis(back.model, back.view.reference.cube, back.place).len();
    let to = shift_of(len, back.to)?;
    let test = Test::SentBack(to);
    question_of(back.model, back.view, back.dim, back.place, back.by, test)
}

// Whether a feeder's argument for a dimension, by a map from the dimension that the reference's argument at this place
// names elements of, names one over each narrow element from which the leaf is named.
fn reaches_from<'a>(
    model: &'a Model,
    view: ReferenceView<'a>,
    dim: usize,
    to: &'a ElementMap,
    place: usize,
    answers: &mut CoverAnswers,
) -> bool
    requires way { IsWay model.now view dim place to.now }
    requires place { place < length view.reference.now.args }
    requires answers { AreAnswers model.now view.cube answers.old }
    ensures reaches { result ≡ reaches_from (look_of model.now view.entry)
        (axes model.now.space view.entry.reference.now.cube) dim to.now place
        (slice_index_or view.entry.reference.now.args place (Fixed 0)) }
    ensures answers { AreAnswers model.now view.entry.cube answers.new }
{
    let over = SendsOver {
        model,
        view,
        dim,
        place,
        to,
    };
    match &view.reference.args.as_slice()[place] {
        Arg::Moved { from, to: by } if *from as usize == dim => {
            let back = Back {
                model,
                view,
                dim,
                place,
                to,
                by,
            };
            comes_back(back, answers)
        }
        _ => each_named(model, view, place, &over),
    }
}

// Whether a feeder's argument for a dimension names an element over each narrow element of it.
fn reaches<'a>(
    model: &'a Model,
    view: ReferenceView<'a>,
    target: &'a Reference,
    dim: usize,
    answers: &mut CoverAnswers,
) -> bool
    requires view { IsView model.now view }
    requires target { IsReference model.now.space view.reference.now.cube target.now }
    requires cube { target.now.cube ≡ view.cube }
    requires dim { dim < length target.now.args }
    requires answers { AreAnswers model.now view.cube answers.old }
    ensures reaches { result ≡ reaches (look_of model.now view.entry)
        (axes model.now.space view.entry.reference.now.cube) dim (slice_index_or target.now.args dim (Fixed 0)) }
    ensures answers { AreAnswers model.now view.entry.cube answers.new }
{
    match &target.args.as_slice()[dim] {
        Arg::Fixed(over) => StandsOver { model, view, dim }.passes(*over),
        Arg::Moved { from, to } => reaches_from(model, view, dim, to, *from as usize, answers),
    }
}

// Whether each argument of a feeder from this dimension on that names one element names one over each narrow element of
// the dimension.
#[cycle(fixed_reach)]
fn fixed_reach<'a>(
    model: &'a Model,
    view: ReferenceView<'a>,
    target: &'a Reference,
    dim: usize,
) -> bool
    requires view { IsView model.now view }
    requires target { IsReference model.now.space view.reference.now.cube target.now }
    requires cube { target.now.cube ≡ view.cube }
    requires dim { dim ≤ length target.now.args }
    ensures { result ≡ fixed_reach (look_of model.now view.entry) dim (drop dim target.now.args) }
{
    let args = target.args.as_slice();
    if dim == args.len() {
        return true;
    }
    match &args[dim] {
        Arg::Fixed(over) => StandsOver { model, view, dim }.passes(*over)
            && fixed_reach(model, view, target, dim + 1),
        Arg::Moved { .. } => fixed_reach(model, view, target, dim + 1),
    }
}

/// Whether each argument of a feeder names an element over each narrow element of its dimension. Those that name one
/// element come first, since they cost little and tell most feeders apart.
pub fn reaches_all<'a>(
    model: &'a Model,
    view: ReferenceView<'a>,
    target: &'a Reference,
    answers: &mut CoverAnswers,
) -> bool
    requires view { IsView model.now view }
    requires target { IsReference model.now.space view.reference.now.cube target.now }
    requires cube { target.now.cube ≡ view.cube }
    requires answers { AreAnswers model.now view.cube answers.old }
    ensures reach { result ≡ all_reach (look_of model.now view.entry)
        (axes model.now.space view.entry.reference.now.cube) 0 target.now.args }
    ensures answers { AreAnswers model.now view.entry.cube answers.new }
{
    if !fixed_reach(model, view, target, 0) {
        return false;
    }
    all_reach(model, view, target, 0, answers)
}

// Whether each argument of a feeder from this dimension on does.
#[cycle(all_reach)]
fn all_reach<'a>(
    model: &'a Model,
    view: ReferenceView<'a>,
    target: &'a Reference,
    dim: usize,
    answers: &mut CoverAnswers,
) -> bool
    requires view { IsView model.now view }
    requires target { IsReference model.now.space view.reference.now.cube target.now }
    requires cube { target.now.cube ≡ view.cube }
    requires dim { dim ≤ length target.now.args }
    requires answers { AreAnswers model.now view.cube answers.old }
    ensures reach { result ≡ all_reach (look_of model.now view.entry)
        (axes model.now.space view.entry.reference.now.cube) dim (drop dim target.now.args) }
    ensures answers { AreAnswers model.now view.entry.cube answers.new }
{
    dim == target.args.as_slice().len()
        || (reaches(model, view, target, dim, answers)
            && all_reach(model, view, target, dim + 1, answers))
}
