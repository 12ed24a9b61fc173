ghost use Rattle.std.specs.Prelude.{◌≡◌, ◌<◌, ◌≤◌, ◌↔◌, true, length, All, Contains, IsTrue, IsFalse};
ghost use Rattle.std.specs.List.{list_any};
ghost use Rattle.dim_core.specs.Outline.{Outline};
ghost use Rattle.dim_weights.specs.Coefficients.{coef};
ghost use Rattle.dim_weights.specs.Table.{IsWeightsOf, is_nonzero};
ghost use Rattle.cube_space.specs.Layout.{axes, axes_of, sizes_of, most_dimensions};
ghost use Rattle.cube_space.specs.Cells.{is_place};
ghost use Rattle.cube_space.specs.Radix.{are_digits};
ghost use Rattle.rule_model.specs.Areas.{in_source_set, in_source_sets};
ghost use Rattle.rule_model.specs.Conditions.{IsArea, IsSet};
ghost use Rattle.std.specs.List.{AllZip};
ghost use Rattle.std.specs.List.Sorted.{IsStrictlyIncreasing};
ghost use Rattle.feed_sources.specs.Inside.Above.{IsAboveOf, Meet};

use crate::above::Above;
use crate::source_model::SourceModel;
use dim_weights::Weights;
use lists::ListOf;
use rule_model::Area;

/// Whether an area has the leaf cell of its cube with these elements: in each dimension that it restricts, the
/// cell's element counts in one that the area lists.
pub fn is_source(model: &SourceModel, cube: u32, area: &Area, elements: &[u32]) -> bool
    requires place { is_place model.now.space cube elements.now ≡ true }
    requires area { IsArea model.now.space cube area.now }
    ensures { result ≡ in_source_sets (axes model.now.space cube) area.now.sets elements.now }
{
    let dims = model.space().shape(cube).dims.as_slice();
    in_source_sets(model, dims, area.sets.as_slice(), elements)
}

fn in_source_sets(
    model: &SourceModel,
    dims: &[u32],
    sets: &[Option<ListOf<u32>>],
    elements: &[u32],
) -> bool
    requires few { length dims.now ≤ most_dimensions }
    requires dims { All (λ dim. dim < length model.now.space.dimensions) dims.now }
    requires sets { AllZip IsSet (sizes_of (axes_of model.now.space.dimensions dims.now)) sets.now }
    requires digits { are_digits (sizes_of (axes_of model.now.space.dimensions dims.now)) elements.now ≡ true }
    ensures { result ≡ in_source_sets (axes_of model.now.space.dimensions dims.now) sets.now elements.now }
{
    'each: for place in 0..dims.len() {
        let weights = &model.model().weights()[dims[place] as usize];
        let above = &model.above()[dims[place] as usize];
        if !in_source_set(weights, above, &sets[place], elements[place]) {
            return false;
        }
    }
    true
}

fn in_source_set(weights: &Weights, above: &Above, set: &Option<ListOf<u32>>, leaf: u32) -> bool
    requires set { IsSet (length weights.now) set.now }
    requires leaf { leaf < length weights.now }
    requires above { length above.now ≡ length weights.now }
    ensures { (d : Outline) → IsWeightsOf d weights.now → IsAboveOf d above.now
        → result ≡ in_source_set d set.now leaf }
{
    let Some(listed) = set else {
        return true;
    };
    let listed = listed.as_slice();
    let elements = above.of_leaf(leaf);
    if listed.len() <= elements.len() {
        counts_in_one(weights, listed, leaf)
    } else {
        is_one_listed(listed, elements)
    }
}

// Whether a leaf counts in one of these elements.
fn counts_in_one(weights: &Weights, listed: &[u32], leaf: u32) -> bool
    requires listed { All (λ element. element < length weights.now) listed.now }
    requires leaf { leaf < length weights.now }
    ensures { (d : Outline) → IsWeightsOf d weights.now
        → result ≡ list_any (λ e. is_nonzero (coef d e leaf)) listed.now }
{
    'each: for place in 0..listed.len() {
        if weights.coef(listed[place], leaf) != 0 {
            return true;
        }
    }
    false
}

// Whether one of these elements is in a rising list.
fn is_one_listed(listed: &[u32], elements: &[u32]) -> bool
    requires { IsStrictlyIncreasing listed.now }
    ensures one { IsTrue result → Meet elements.now listed.now }
    ensures none { IsFalse result → Meet elements.now listed.now → ⊥ }
{
    'each: for place in 0..elements.len() {
        if is_listed(listed, elements[place]) {
            return true;
        }
    }
    false
}

// Whether an element is in a rising list.
fn is_listed(listed: &[u32], element: u32) -> bool
    requires { IsStrictlyIncreasing listed.now }
    ensures { IsTrue result ↔ Contains listed.now element }
{
    listed.binary_search(&element).is_ok()
}
