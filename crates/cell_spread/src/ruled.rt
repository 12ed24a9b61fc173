ghost use Rattle.std.specs.Prelude.{◌≡◌, ◌<◌, ◌≤◌, true, All, length};
ghost use Rattle.std.specs.List.{AllZip, list_any};
ghost use Rattle.dim_core.specs.Outline.{Outline};
ghost use Rattle.dim_weights.specs.Table.{IsWeightsOf, is_nonzero, leaves_in, share};
ghost use Rattle.cube_space.specs.Cells.{IsCell};
ghost use Rattle.cube_space.specs.Layout.{axes_of, sizes_of, most_dimensions};
ghost use Rattle.cube_space.specs.Radix.{are_digits};
ghost use Rattle.rule_model.specs.Conditions.{IsSet};
ghost use Rattle.cell_spread.specs.Spread.{is_governed, is_ruled, cells_below};
ghost use Rattle.cell_spread.specs.Inside.Meets.{meets, meets_in, speaks_below};

use cube_space::MAX_DIMENSIONS;
use dim_weights::Weights;
use lists::ListOf;
use rule_model::{Model, Statement, governing};

/// Whether a statement governs a cell or a leaf cell below it.
pub fn is_ruled(model: &Model, cell: u64) -> bool
    requires { IsCell model.now.space cell }
    ensures { result ≡ is_ruled model.now cell }
{
    governing(model, cell).is_some() || is_ruled_below(model, cell)
}

// Whether a statement governs a leaf cell below a cell. One does where it has an N part, and its area has, in each
// dimension, a leaf that counts in the cell's element.
fn is_ruled_below(model: &Model, cell: u64) -> bool
    requires { IsCell model.now.space cell }
    ensures { result ≡ list_any (is_governed model.now) (cells_below model.now.space cell) }
{
    let space = model.space();
    let mut at = [0u32; MAX_DIMENSIONS];
    let cube = space.place(cell, &mut at);
    let dims = space.shape(cube).dims.as_slice();
    let statements = model.rules(cube).statements.as_slice();
    for statement in statements {
        if speaks_below(model, dims, &at[..dims.len()], statement) {
            return true;
        }
    }
    false
}

// Whether a statement has an N part, and in each of these dimensions a leaf in its area that counts in the element.
fn speaks_below(model: &Model, dims: &[u32], at: &[u32], statement: &Statement) -> bool
    requires few { length dims.now ≤ most_dimensions }
    requires dims { All (λ dim. dim < length model.now.space.dimensions) dims.now }
    requires at { are_digits (sizes_of (axes_of model.now.space.dimensions dims.now)) at.now ≡ true }
    requires sets { AllZip IsSet (sizes_of (axes_of model.now.space.dimensions dims.now)) statement.now.area.sets }
    ensures { result ≡ speaks_below (axes_of model.now.space.dimensions dims.now) at.now statement.now }
{
    statement.leaf.is_some() && meets(model, dims, at, statement.area.sets.as_slice())
}

// Whether these sets have, in each of these dimensions, a leaf that counts in the element.
fn meets(model: &Model, dims: &[u32], at: &[u32], sets: &[Option<ListOf<u32>>]) -> bool
    requires few { length dims.now ≤ most_dimensions }
    requires dims { All (λ dim. dim < length model.now.space.dimensions) dims.now }
    requires at { are_digits (sizes_of (axes_of model.now.space.dimensions dims.now)) at.now ≡ true }
    requires sets { AllZip IsSet (sizes_of (axes_of model.now.space.dimensions dims.now)) sets.now }
    ensures { result ≡ meets (axes_of model.now.space.dimensions dims.now) at.now sets.now }
{
    'each: for place in 0..dims.len() {
        let weights = &model.weights()[dims[place] as usize];
        if !meets_in(weights, at[place], &sets[place]) {
            return false;
        }
    }
    true
}

// Whether a set has a leaf that counts in an element.
fn meets_in(weights: &Weights, element: u32, set: &Option<ListOf<u32>>) -> bool
    requires { element < length weights.now }
    ensures { (d : Outline) → IsWeightsOf d weights.now → IsSet (length d.elements) set.now
        → result ≡ meets_in d element set.now }
{
    match set {
        Some(listed) => counts_any(weights, element, listed.as_slice()),
        None => !weights.leaves(element).is_empty(),
    }
}

// Whether one of these leaves counts in an element.
fn counts_any(weights: &Weights, element: u32, listed: &[u32]) -> bool
    requires { element < length weights.now }
    ensures { result ≡ list_any (λ leaf. is_nonzero (share (leaves_in weights.now element) leaf)) listed.now }
{
    for leaf in listed {
        if weights.coef(element, *leaf) != 0 {
            return true;
        }
    }
    false
}
