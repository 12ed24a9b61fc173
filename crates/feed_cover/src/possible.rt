ghost use Rattle.std.specs.Prelude.{◌≡◌, ◌<◌, ◌≤◌, length, drop};
ghost use Rattle.cube_space.specs.Layout.{axes};
ghost use Rattle.cover_laws.specs.Looking.{fixed_count, is_possible, each_below, some_in, is_narrow};
ghost use Rattle.feed_cover.specs.Views.{counts_of, look_of, IsView};

use crate::each::some_narrow;
use crate::narrow::counts;
use crate::reference_view::ReferenceView;
use ref_order::axis_count;
use rule_laws::Arg;
use rule_model::Model;

// Whether each argument from this place on that names the same element from each cell names one that counts.
#[cycle(fixed_count)]
fn fixed_count(model: &Model, view: ReferenceView, place: usize) -> bool
    requires view { IsView model.now view }
    requires place { place ≤ length view.reference.now.args }
    ensures { result ≡ fixed_count (counts_of view.entry.counted model.now view.entry.reference.now.cube) place
        (drop place view.entry.reference.now.args) }
{
    let args = view.reference.args.as_slice();
    if place == args.len() {
        return true;
    }
    match &args[place] {
        Arg::Fixed(target) => counts(model, view, place, *target)
            && fixed_count(model, view, place + 1),
        Arg::Moved { .. } => fixed_count(model, view, place + 1),
    }
}

/// Whether from some leaf cell of the area every argument names an element that counts.
#[tactic(auto, unfolding(cover_laws::specs::Looking::is_possible))]
pub fn is_possible(model: &Model, view: ReferenceView) -> bool
    requires view { IsView model.now view }
    ensures { result ≡ is_possible (look_of model.now view.entry) }
{
    fixed_count(model, view, 0) && has_narrow(model, view)
}

// Whether the area has a narrow element in each dimension.
fn has_narrow(model: &Model, view: ReferenceView) -> bool
    requires view { IsView model.now view }
    ensures { result ≡ each_below (λ i. some_in (look_of model.now view.entry) i
        (is_narrow (look_of model.now view.entry) i)) (length (axes model.now.space view.entry.cube)) }
{
    'each: for dim in 0..axis_count(model, view.cube) {
        if !some_narrow(model, view, dim) {
            return false;
        }
    }
    true
}
