ghost use Rattle.std.specs.Prelude.{◌≡◌, ◌<◌, ◌≤◌, ℕ, ◌==◌, not, ◌||◌, IfSome, IsTrue, length, drop};
ghost use Rattle.cube_space.specs.Layout.{Layout, axes};
ghost use Rattle.feed_cover.specs.Views.{IsView};
ghost use Rattle.feed_cover.specs.Answers.{back_of, listed_of, answer_of, follows, others_stay, IsQuestion};

use crate::reference_view::{Counted, ReferenceView};
use crate::set::has_all;
use crate::shift::{Shift, same_shift, shift_of};
use ref_order::axis;
use rule_laws::{Arg, ElementMap};
use rule_model::Model;

/// What is asked about the element that is named from a narrow one.
#[derive(Clone, Copy)]
pub enum Test<'a> {
    /// Whether each leaf that counts in it is sent back to one over the narrow element.
    SentBack(Shift),
    /// Whether each leaf that counts in it is among the sources that a feeder's area lists.
    Listed(&'a [u32]),
}

/// A question about all elements of a dimension of the cube that is looked from, where one argument alone follows it.
#[derive(Clone, Copy)]
pub struct Question<'a> {
    /// The reference's cube.
    pub own: u32,
    pub dim: usize,
    /// The place of the argument.
    pub place: usize,
    pub by: Shift,
    pub test: Test<'a>,
}

/// The question that is asked of the argument at a place, which follows a dimension, where the answer rests on nothing
/// else of the reference and the area.
pub fn question_of<'a>(
    model: &Model,
    view: ReferenceView,
    dim: usize,
    place: usize,
    by: &ElementMap,
    test: Test<'a>,
) -> Option<Question<'a>>
    requires view { IsView model.now view }
    requires dim { dim < length (axes model.now.space view.cube) }
    ensures { IfSome result (IsQuestion view.entry dim place by.now test.entry) }
{
    if !matches!(view.counted, Counted::Leaves) {
        return None;
    }
    if !has_all(model, view, dim) {
        return None;
    }
    if !others_stay(view.reference.args.as_slice(), dim, place, 0) {
        return None;
    }
    let by = shift_of(axis(model, view.cube, dim).len(), by)?;
    Some(Question {
        own: view.reference.cube,
        dim,
        place,
        by,
        test,
    })
}

// Whether no argument from this one on, but for the one at the place, follows the dimension.
#[cycle(others_stay)]
fn others_stay(args: &[Arg], dim: usize, place: usize, from: usize) -> bool
    requires { from ≤ length args.now }
    ensures { result ≡ others_stay dim place from (drop from args.now) }
{
    from == args.len()
        || (stays(&args[from], dim, from, place) && others_stay(args, dim, place, from + 1))
}

fn stays(arg: &Arg, dim: usize, at: usize, place: usize) -> bool
    ensures { result ≡ ((at == place) || not (follows dim arg.now)) }
{
    at == place || !follows(arg, dim)
}

fn follows(arg: &Arg, dim: usize) -> bool
    ensures { result ≡ follows dim arg.now }
{
    match arg {
        Arg::Fixed(_) => false,
        Arg::Moved { from, .. } => dim == *from as usize,
    }
}

/// Whether it is known at once that two questions have the same answer.
pub fn ask_alike(one: Question, other: Question) -> bool
    ensures { IsTrue result → (space : Layout) (cube : ℕ)
        → answer_of space cube one.entry ≡ answer_of space cube other.entry }
{
    if one.own != other.own {
        return false;
    }
    if one.dim != other.dim {
        return false;
    }
    if one.place != other.place {
        return false;
    }
    if !same_shift(one.by, other.by) {
        return false;
    }
    same_test(one.test, other.test)
}

fn same_test(one: Test, other: Test) -> bool
    ensures back { IsTrue result → back_of one.entry ≡ back_of other.entry }
    ensures listed { IsTrue result → listed_of one.entry ≡ listed_of other.entry }
{
    match (one, other) {
        (Test::SentBack(to), Test::SentBack(its)) => same_shift(to, its),
        (Test::Listed(listed), Test::Listed(its)) => listed == its,
        _ => false,
    }
}
