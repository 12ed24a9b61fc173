ghost use Rattle.std.specs.Prelude.{◌≡◌, ◌<◌, ◌≤◌, length, drop, slice_index_or};
ghost use Rattle.cube_space.specs.Layout.{axes, sizes};
ghost use Rattle.rule_laws.specs.declared.reference.Arg.TheVariants.{Fixed};
ghost use Rattle.cover_laws.specs.Looking.{names_one, name_each, is_narrow};
ghost use Rattle.feed_cover.specs.Views.{counts_of, look_of, IsView};

use crate::reference_view::{Counted, ReferenceView};
use crate::set::is_listed;
use crate::table::leaves;
use ref_order::axis;
use rule_laws::Arg;
use rule_model::Model;

/// Whether an element counts that the argument at this place names.
pub fn counts(model: &Model, view: ReferenceView, place: usize, element: u32) -> bool
    requires view { IsView model.now view }
    requires place { place < length (axes model.now.space view.reference.now.cube) }
    requires element { element < slice_index_or (sizes model.now.space view.reference.now.cube) place 0 }
    ensures { result ≡ counts_of view.entry.counted model.now view.entry.reference.now.cube place element }
{
    match view.counted {
        Counted::All => true,
        Counted::Leaves => !leaves(model, view.reference.cube, place, element).is_empty(),
        Counted::Within(area) => {
            let size = axis(model, view.reference.cube, place).len();
            is_listed(&area.sets.as_slice()[place], size, element)
        }
    }
}

// Whether the argument at this place, if it follows the dimension, names an element that counts.
fn names_one(model: &Model, view: ReferenceView, place: usize, dim: usize, element: u32) -> bool
    requires view { IsView model.now view }
    requires place { place < length view.reference.now.args }
    requires dim { dim < length (axes model.now.space view.cube) }
    requires element { element < slice_index_or (sizes model.now.space view.cube) dim 0 }
    ensures { result ≡ names_one (counts_of view.entry.counted model.now view.entry.reference.now.cube place)
        (slice_index_or view.entry.reference.now.args place (Fixed 0)) dim element }
{
    match &view.reference.args.as_slice()[place] {
        Arg::Fixed(_) => true,
        Arg::Moved { from, to } => dim != *from as usize
            || match to.get(element as usize) {
                Some(target) => counts(model, view, place, target),
                None => false,
            },
    }
}

// Whether each argument from this place on does.
#[cycle(name_each)]
fn name_each(model: &Model, view: ReferenceView, place: usize, dim: usize, element: u32) -> bool
    requires view { IsView model.now view }
    requires place { place ≤ length view.reference.now.args }
    requires dim { dim < length (axes model.now.space view.cube) }
    requires element { element < slice_index_or (sizes model.now.space view.cube) dim 0 }
    ensures { result ≡ name_each (counts_of view.entry.counted model.now view.entry.reference.now.cube) place
        (drop place view.entry.reference.now.args) dim element }
{
    place == view.reference.args.as_slice().len()
        || (names_one(model, view, place, dim, element)
            && name_each(model, view, place + 1, dim, element))
}

/// Whether an element of a dimension is a leaf from which each argument that follows the dimension names an element
/// that counts.
#[tactic(auto, unfolding(cover_laws::specs::Looking::is_narrow))]
pub fn is_narrow(model: &Model, view: ReferenceView, dim: usize, element: u32) -> bool
    requires view { IsView model.now view }
    requires dim { dim < length (axes model.now.space view.cube) }
    requires element { element < slice_index_or (sizes model.now.space view.cube) dim 0 }
    ensures { result ≡ is_narrow (look_of model.now view.entry) dim element }
{
    axis(model, view.cube, dim).is_leaf(element) && name_each(model, view, 0, dim, element)
}
