ghost use Rattle.std.specs.Prelude.{◌≡◌, ℕ, ◌+◌, ◌-◌, ◌*◌, ◌<◌, ◌≤◌, ◌^◌, ◌&&◌, pos, Some, length, drop, unsigned_abs, IfSome};
ghost use Rattle.std.specs.Prelude.{slice_index_or};
ghost use Rattle.cube_space.specs.Layout.{axes, sizes, most_dimensions};
ghost use Rattle.rule_model.specs.Conditions.{IsReference};
ghost use Rattle.order_laws.specs.Greatest.{plus};
ghost use Rattle.order_laws.specs.Scales.{fixed_sum, moved_sum, is_leaf_element};
ghost use Rattle.order_laws.specs.Earlier.{fixed_leaves, moved_leaves};
ghost use Rattle.ref_order.specs.Scaled.{scale_by};

use crate::number::plus;
use crate::scale::{KindScale, is_leaf_element, worth};
use rule_laws::{Arg, Reference};
use rule_model::Model;

/// An element of a dimension of the source's cube.
#[derive(Clone, Copy)]
pub struct Source {
    pub cube: u32,
    pub dim: usize,
    pub element: u32,
}

/// What an element of the source names in the target, by the arguments that follow its dimension.
#[derive(Clone, Copy)]
pub struct Moved {
    /// What that adds to the target; None where an argument names nothing from the element.
    pub sum: Option<i64>,
    /// Whether all of it is a leaf.
    pub leaves: bool,
}

/// What an element of a dimension of the source names in the cell that a reference names, by its arguments from this
/// one on.
#[cycle(moved_from)]
pub fn moved_from(target: KindScale, reference: &Reference, from: usize, source: Source) -> Moved
    requires cube { target.cube ≡ reference.now.cube }
    requires reference { IsReference target.model.now.space source.cube reference.now }
    requires few { length reference.now.args ≤ most_dimensions }
    requires from { from ≤ length reference.now.args }
    ensures sum { result.sum ≡ moved_sum (scale_by target.entry).worth from (drop from reference.now.args) source.dim
        source.element }
    ensures leaves { result.leaves ≡ moved_leaves (axes target.entry.model.now.space target.entry.cube) from
        (drop from reference.now.args) source.dim source.element }
    ensures size { IfSome result.sum (λ n. unsigned_abs n ≤ (length reference.now.args - from) * 2 ^ 32) }
{
    let args = reference.args.as_slice();
    if from == args.len() {
        return Moved {
            sum: Some(0),
            leaves: true,
        };
    }
    let rest = moved_from(target, reference, from + 1, source);
    match &args[from] {
        Arg::Fixed(_) => rest,
        Arg::Moved { from: followed, to } => {
            if source.dim != *followed as usize {
                return rest;
            }
            match to.get(source.element as usize) {
                Some(named) => with_named(target, from, named, rest),
                None => Moved {
                    sum: None,
                    leaves: rest.leaves,
                },
            }
        }
    }
}

// The same with one element more that is named, in this dimension of the target's cube.
fn with_named(target: KindScale, dim: usize, element: u32, rest: Moved) -> Moved
    requires cube { target.cube < length target.model.now.space.cubes }
    requires dim { dim < length (axes target.model.now.space target.cube) }
    requires element { element < slice_index_or (sizes target.model.now.space target.cube) dim 0 }
    requires rest { IfSome rest.sum (λ n. unsigned_abs n ≤ 2 ^ 50) }
    ensures sum { result.sum ≡ plus (Some (pos ((scale_by target.entry).worth dim element))) rest.sum }
    ensures leaves { result.leaves ≡ (is_leaf_element (axes target.entry.model.now.space target.entry.cube) dim element
        && rest.leaves) }
    ensures size { (most : ℕ) → IfSome rest.sum (λ n. unsigned_abs n ≤ most)
        → IfSome result.sum (λ n. unsigned_abs n ≤ 2 ^ 32 + most) }
{
    Moved {
        sum: plus(Some(i64::from(worth(target, dim, element))), rest.sum),
        leaves: is_leaf_element(target.model, target.cube, dim, element) && rest.leaves,
    }
}

/// What the fixed arguments of a reference add, from this one on.
#[cycle(fixed_sum)]
pub fn fixed_sum(target: KindScale, cube: u32, reference: &Reference, from: usize) -> u64
    requires cube { target.cube ≡ reference.now.cube }
    requires reference { IsReference target.model.now.space cube reference.now }
    requires few { length reference.now.args ≤ most_dimensions }
    requires from { from ≤ length reference.now.args }
    ensures value { result ≡ fixed_sum (scale_by target.entry).worth from (drop from reference.now.args) }
    ensures size { result ≤ (length reference.now.args - from) * 2 ^ 32 }
{
    let args = reference.args.as_slice();
    if from == args.len() {
        return 0;
    }
    let rest = fixed_sum(target, cube, reference, from + 1);
    match &args[from] {
        Arg::Fixed(element) => u64::from(worth(target, from, *element)) + rest,
        Arg::Moved { .. } => rest,
    }
}

/// Whether the fixed arguments of a reference name leaves alone, from this one on.
#[cycle(fixed_leaves)]
pub fn fixed_leaves(model: &Model, cube: u32, reference: &Reference, from: usize) -> bool
    requires reference { IsReference model.now.space cube reference.now }
    requires from { from ≤ length reference.now.args }
    ensures { result ≡ fixed_leaves (axes model.now.space reference.now.cube) from (drop from reference.now.args) }
{
    let args = reference.args.as_slice();
    if from == args.len() {
        return true;
    }
    let rest = fixed_leaves(model, cube, reference, from + 1);
    match &args[from] {
        Arg::Fixed(element) => is_leaf_element(model, reference.cube, from, *element) && rest,
        Arg::Moved { .. } => rest,
    }
}
