ghost use Rattle.std.specs.Prelude.{◌≡◌, ◌≢◌, [], IfOk, IsTrue};
ghost use Rattle.dim_core.specs.Outline.{IsElement};
ghost use Rattle.dim_weights.specs.Inside.Alike.{AreAlike, MayStandIn, stand_in, stood_in};

use dim_core::Dimension;
use std::alloc::{AllocError, Global};
use std::collections::BTreeMap;

/// For each element the one that stands in for it: the first with the very same components, which has the same leaves.
/// For a leaf it is the leaf itself.
pub fn alike_of(alloc: Global, dimension: &Dimension) -> Result<Vec<u32>, AllocError>
    ensures { IfOk result (λ alike. AreAlike dimension.now alike.items) }
{
    let first = first_alike(alloc, dimension)?;
    let mut alike = Vec::with_capacity(alloc, dimension.len() as usize)?;
    for element in 0..dimension.len() {
        alike.push(alike_or_itself(dimension, stand_in(&first, element), element))?;
    }
    Ok(alike)
}

// The first element with the very same components, by a table of the lists of components. What it says is tested.
fn first_alike(alloc: Global, dimension: &Dimension) -> Result<Vec<u32>, AllocError> {
    let mut known = BTreeMap::new(alloc);
    let mut first = Vec::with_capacity(alloc, dimension.len() as usize)?;
    for element in 0..dimension.len() {
        let parts = dimension.components(element).to_vec(alloc)?;
        first.push(*known.entry(parts)?.or_insert(element))?;
    }
    Ok(first)
}

// This other element where it may stand in for an element, and else the element itself.
fn alike_or_itself(dimension: &Dimension, other: u32, element: u32) -> u32
    requires { IsElement dimension.now element }
    ensures { MayStandIn dimension.now result element }
{
    if other < element && are_same(dimension.components(other), dimension.components(element)) {
        other
    } else {
        element
    }
}

// Whether both are the same components, and some.
fn are_same(first: &[(u32, i64)], second: &[(u32, i64)]) -> bool
    ensures same { IsTrue result → first.now ≡ second.now }
    ensures some { IsTrue result → second.now ≢ [] }
{
    !second.is_empty() && first == second
}

/// The element that stands in for this one.
pub fn stand_in(alike: &[u32], element: u32) -> u32
    ensures { result ≡ stand_in alike.now element }
{
    alike.get(element as usize).copied().unwrap_or(element)
}

/// These components by what stands in for them.
pub fn stood_in(
    alloc: Global,
    alike: &[u32],
    parts: &[(u32, i64)],
) -> Result<Vec<(u32, i64)>, AllocError>
    ensures { IfOk result (λ made. made.items ≡ stood_in alike.now parts.now) }
{
    let mut made = Vec::with_capacity(alloc, parts.len())?;
    'parts: for (part, weight) in parts {
        made.push((stand_in(alike, *part), *weight))?;
    }
    Ok(made)
}
