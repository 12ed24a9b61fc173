ghost use Rattle.std.specs.Prelude.{◌≡◌, ℕ, ◌<◌, length, slice_index_or, Some, IfSome, true, false, not, ◌==◌};
ghost use Rattle.std.specs.Option.{option_map_or};
ghost use Rattle.cube_space.specs.Layout.{axes, sizes};
ghost use Rattle.cover_laws.specs.Looking.{is_narrow, some_in, each_narrow, sent};
ghost use Rattle.cover_laws.specs.Covered.{each_sent};
ghost use Rattle.feed_cover.specs.Views.{look_of, IsView};
ghost use Rattle.feed_cover.specs.Asked.{IsOnlyNarrow};

use crate::narrow::is_narrow;
use crate::reference_view::ReferenceView;
use crate::set::{count_in, element_in};
use crate::table::leaves;
use crate::test::ElementTest;
use rule_laws::ElementMap;
use rule_model::Model;

/// Whether the area has a narrow element in a dimension.
pub fn some_narrow(model: &Model, view: ReferenceView, dim: usize) -> bool
    requires view { IsView model.now view }
    requires dim { dim < length (axes model.now.space view.cube) }
    ensures { result ≡ some_in (look_of model.now view.entry) dim (is_narrow (look_of model.now view.entry) dim) }
{
    'each: for k in 0..count_in(model, view, dim) {
        if is_narrow(model, view, dim, element_in(model, view, dim, k)) {
            return true;
        }
    }
    false
}

/// The one narrow element that the area has in a dimension, if it has one there and no other.
pub fn only_narrow(model: &Model, view: ReferenceView, dim: usize) -> Option<u32>
    requires view { IsView model.now view }
    requires dim { dim < length (axes model.now.space view.cube) }
    ensures { (element : ℕ) → IsOnlyNarrow (look_of model.now view.entry) dim element → result ≡ Some element }
{
    let mut only = None;
    'each: for k in 0..count_in(model, view, dim) {
        let element = element_in(model, view, dim, k);
        if is_narrow(model, view, dim, element) {
            if is_other(only, element) {
                return None;
            }
            only = Some(element);
        }
    }
    only
}

// Whether there is an element, and it is another one.
fn is_other(only: Option<u32>, element: u32) -> bool
    ensures { result ≡ option_map_or (λ e. not (e == element)) only false }
{
    match only {
        Some(only) => only != element,
        None => false,
    }
}

/// Whether each narrow element that the area has in a dimension passes.
pub fn each_narrow<T: ElementTest>(model: &Model, view: ReferenceView, dim: usize, test: &T) -> bool
    requires view { IsView model.now view }
    requires dim { dim < length (axes model.now.space view.cube) }
    requires test { (element : ℕ) → element < slice_index_or (sizes model.now.space view.cube) dim 0
        → T.may_ask test.now element }
    ensures { result ≡ each_narrow (look_of model.now view.entry) dim (T.passes test.now) }
{
    'each: for k in 0..count_in(model, view, dim) {
        let element = element_in(model, view, dim, k);
        if is_narrow(model, view, dim, element) && !test.passes(element) {
            return false;
        }
    }
    true
}

/// Whether each leaf that counts in an element is sent to one that passes.
pub fn each_sent<T: ElementTest>(
    model: &Model,
    cube: u32,
    place: usize,
    to: &ElementMap,
    test: &T,
    element: u32,
) -> bool
    requires cube { cube < length model.now.space.cubes }
    requires place { place < length (axes model.now.space cube) }
    requires element { element < slice_index_or (sizes model.now.space cube) place 0 }
    requires test { (leaf over : ℕ) → sent to.now leaf ≡ Some over → T.may_ask test.now over }
    ensures { result ≡ each_sent (axes model.now.space cube) place to.now (T.passes test.now) element }
{
    let pairs = leaves(model, cube, place, element);
    let mut last = None;
    'each: for k in 0..pairs.len() {
        let over = to.get(pairs[k].0 as usize);
        if !passes_after(last, over, test) {
            return false;
        }
        last = over;
    }
    true
}

// Whether there is an element and it passes, where the one before did. Mostly both are the same.
fn passes_after<T: ElementTest>(last: Option<u32>, over: Option<u32>, test: &T) -> bool
    requires last { IfSome last (λ element. T.passes test.now element ≡ true) }
    requires test { IfSome over (T.may_ask test.now) }
    ensures { result ≡ option_map_or (T.passes test.now) over false }
{
    match (over, last) {
        (Some(over), Some(last)) if over == last => true,
        (Some(over), _) => test.passes(over),
        (None, _) => false,
    }
}
