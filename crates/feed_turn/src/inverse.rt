ghost use Rattle.std.specs.Prelude.{◌≡◌, ◌<◌, ℕ, Some, length, All, IfOk, IsTrue, IsFalse, option_map};
ghost use Rattle.dim_weights.specs.Table.{IsWeightsOf, IsRising};
ghost use Rattle.cover_laws.specs.Looking.{sent};
ghost use Rattle.feed_turn.specs.Inverse.{inverse};
ghost use Rattle.feed_turn.specs.Inside.Slots.{IsPut, IsTaken, pairs_from};

use dim_core::Dimension;
use dim_weights::Weights;
use rule_laws::ElementMap;
use std::alloc::{AllocError, Global};

/// The map back from a dimension, which a map sends these leaves to: from each of its leaves to the only one that leads
/// to it. None where several lead to one.
#[tactic(auto, unfolding(crate::specs::Inverse::inverse))]
pub fn inverse(
    alloc: Global,
    dimension: &Dimension,
    weights: &Weights,
    to: &ElementMap,
    leaves: &[u32],
) -> Result<Option<Vec<Option<u32>>>, AllocError>
    requires weights { IsWeightsOf dimension.now weights.now }
    requires within { (leaf element : ℕ) → sent to.now leaf ≡ Some element
        → element < length dimension.now.elements }
    ensures { IfOk result (λ found. option_map (λ back. back.items) found
        ≡ inverse dimension.now to.now leaves.now) }
{
    let mut slots = vec![in alloc; None; dimension.len() as usize]?;
    'each: for leaf in leaves {
        if !put_leading(weights, to, *leaf, &mut slots) {
            return Ok(None);
        }
    }
    Ok(Some(slots))
}

// Puts a leaf into the slots of the leaves that it leads to. False where one isn't free.
fn put_leading(weights: &Weights, to: &ElementMap, leaf: u32, slots: &mut [Option<u32>]) -> bool
    requires whole { length weights.now ≡ length slots.old }
    requires within { (leaf element : ℕ) → sent to.now leaf ≡ Some element → element < length slots.old }
    ensures put { IsTrue result → IsPut (pairs_from weights.now (sent to.now leaf)) leaf slots.old slots.new }
    ensures taken { IsFalse result → IsTaken (pairs_from weights.now (sent to.now leaf)) slots.old }
{
    match to.get(leaf as usize) {
        Some(element) => put_each(weights.leaves(element), leaf, slots),
        None => true,
    }
}

// Puts an element into the slots of these leaves. False where one isn't free.
fn put_each(pairs: &[(u32, i64)], element: u32, slots: &mut [Option<u32>]) -> bool
    requires rising { IsRising pairs.now }
    requires within { All (λ pair. pair.0 < length slots.old) pairs.now }
    ensures put { IsTrue result → IsPut pairs.now element slots.old slots.new }
    ensures taken { IsFalse result → IsTaken pairs.now slots.old }
{
    'each: for pair in pairs {
        let place = pair.0 as usize;
        if slots[place].is_some() {
            return false;
        }
        slots[place] = Some(element);
    }
    true
}
