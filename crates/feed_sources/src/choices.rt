ghost use Rattle.std.specs.Prelude.{◌≡◌, ℕ, ◌<◌, ◌≤◌, true, List, length, All, IfSome, Some, slice_get};
ghost use Rattle.std.specs.List.{AllZip};
ghost use Rattle.dim_core.specs.Outline.{IsElement};
ghost use Rattle.cube_space.specs.Layout.{axes_of, sizes_of, dims_of, most_dimensions};
ghost use Rattle.cube_space.specs.Cells.{IsCell, cube_of, elements_of, is_leaf_cell};
ghost use Rattle.rule_laws.specs.Feeding.{FeedsBy};
ghost use Rattle.rule_model.specs.Areas.{in_source_set, in_source_sets};
ghost use Rattle.rule_model.specs.Conditions.{IsFeeder, IsReference, IsSet};
ghost use Rattle.rule_model.specs.System.{system_of, feed_of};
ghost use Rattle.rule_model.specs.Targets.{element_by};
ghost use Rattle.feed_sources.specs.Feeders.{StandsFor};
ghost use Rattle.feed_sources.specs.Inside.Choices.{AreChosen};

use crate::source_model::SourceModel;
use cube_space::{MAX_DIMENSIONS, Space};
use dim_core::Dimension;
use lists::ListOf;
use rule_laws::{Arg, Reference};
use rule_model::Feeder;

/// In each dimension of a feeder's cube the element that sources of a leaf cell have there; None where there may be
/// several.
pub fn choices_of(
    model: &SourceModel,
    cube: u32,
    feeder: &Feeder,
    cell: u64,
) -> [Option<u32>; MAX_DIMENSIONS]
    requires cube { cube < length model.now.space.cubes }
    requires feeder { IsFeeder model.now.space cube feeder.now }
    requires cell { IsCell model.now.space cell }
    ensures { (x : ℕ) → FeedsBy (system_of model.now) (feed_of model.now.space cube feeder.now) x cell
        → AreChosen result (elements_of model.now.space x) }
{
    let mut choices = [None; MAX_DIMENSIONS];
    let dims = model.space().shape(cube).dims.as_slice();
    choose_listed(
        model.space(),
        dims,
        feeder.area.get().sets.as_slice(),
        &mut choices,
    );
    choose_kept(model, cube, &feeder.target, cell, &mut choices);
    choices
}

// Chooses the leaf in each dimension where an area lists just one element, and that is a leaf.
fn choose_listed(
    space: &Space,
    dims: &[u32],
    sets: &[Option<ListOf<u32>>],
    choices: &mut [Option<u32>; MAX_DIMENSIONS],
)
    requires few { length dims.now ≤ most_dimensions }
    requires dims { All (λ dim. dim < length space.now.dimensions) dims.now }
    requires sets { AllZip IsSet (sizes_of (axes_of space.now.dimensions dims.now)) sets.now }
    ensures { (elements : List ℕ) → in_source_sets (axes_of space.now.dimensions dims.now) sets.now elements ≡ true
        → AreChosen choices.old elements → AreChosen choices.new elements }
{
    'each: for place in 0..dims.len() {
        if let Some(leaf) = only_leaf(space.dimension(dims[place]), &sets[place]) {
            choices[place] = Some(leaf);
        }
    }
}

// The leaf that a set means, where it lists just one element, and that is a leaf.
fn only_leaf(dimension: &Dimension, set: &Option<ListOf<u32>>) -> Option<u32>
    requires { IsSet (length dimension.now.elements) set.now }
    ensures { IfSome result (λ leaf. (other : ℕ)
        → in_source_set dimension.now set.now other ≡ true → other ≡ leaf) }
{
    let Some(listed) = set else {
        return None;
    };
    // a dimension says of itself that it is one
    let _len = dimension.len();
    let listed = listed.as_slice();
    if listed.len() == 1 && dimension.is_leaf(listed[0]) {
        Some(listed[0])
    } else {
        None
    }
}

// Chooses the cell's element in each dimension whose element a reference keeps.
fn choose_kept(
    model: &SourceModel,
    cube: u32,
    reference: &Reference,
    cell: u64,
    choices: &mut [Option<u32>; MAX_DIMENSIONS],
)
    requires cube { cube < length model.now.space.cubes }
    requires reference { IsReference model.now.space cube reference.now }
    requires cell { IsCell model.now.space cell }
    ensures { (x : ℕ) → IsCell model.now.space x → cube_of model.now.space x ≡ cube
        → is_leaf_cell model.now.space x ≡ true → StandsFor model.now reference.now x cell
        → AreChosen choices.old (elements_of model.now.space x)
        → AreChosen choices.new (elements_of model.now.space x) }
{
    let mut at = [0u32; MAX_DIMENSIONS];
    let (into, len) = model.place_of(cell, &mut at);
    if reference.cube != into {
        return;
    }
    let space = model.space();
    let (dims, own) = (
        space.shape(cube).dims.as_slice(),
        space.shape(into).dims.as_slice(),
    );
    let args = reference.args.as_slice();
    'each: for place in 0..args.len() {
        if let Some(from) = kept_from(dims, own[place], &args[place]) {
            choices[from as usize] = Some(at[place]);
        }
    }
}

// The place of the source's dimension whose element an argument keeps in this dimension; None where it doesn't.
fn kept_from(dims: &[u32], own: u32, arg: &Arg) -> Option<u32>
    ensures place { IfSome result (λ from. slice_get dims.now from ≡ Some own) }
    ensures kept { IfSome result (λ from. (elements : List ℕ) (element : ℕ)
        → element_by elements arg.now ≡ Some element → slice_get elements from ≡ Some element) }
{
    match arg {
        Arg::Moved { from, to } if to.is_identity() && dims.get(*from as usize) == Some(&own) => {
            Some(*from)
        }
        _ => None,
    }
}
