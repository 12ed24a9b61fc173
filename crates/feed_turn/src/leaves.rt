ghost use Rattle.std.specs.Prelude.{◌≡◌, ◌<◌, [], ◌∷◌, ◌++◌, filter, length, All, IfOk, OnOk};
ghost use Rattle.cube_space.specs.Cells.{is_leaf};
ghost use Rattle.feed_turn.specs.Leaves.{all_elements};

use dim_core::Dimension;
use std::alloc::{AllocError, Global};

/// Those of these elements that are leaves.
pub fn leaves_among(
    alloc: Global,
    dimension: &Dimension,
    elements: &[u32],
) -> Result<Vec<u32>, AllocError>
    requires { All (λ element. element < length dimension.now.elements) elements.now }
    ensures { IfOk result (λ leaves. leaves.items ≡ filter (is_leaf dimension.now) elements.now) }
{
    let mut leaves = Vec::new(alloc);
    'each: for element in elements {
        push_leaf(&mut leaves, dimension, *element)?;
    }
    Ok(leaves)
}

/// The leaves of a dimension.
pub fn all_leaves(alloc: Global, dimension: &Dimension) -> Result<Vec<u32>, AllocError>
    ensures { IfOk result (λ leaves. leaves.items ≡ filter (is_leaf dimension.now) (all_elements dimension.now)) }
{
    let mut leaves = Vec::new(alloc);
    'each: for element in 0..dimension.len() {
        push_leaf(&mut leaves, dimension, element)?;
    }
    Ok(leaves)
}

// Adds an element, if it is a leaf.
fn push_leaf(leaves: &mut Vec<u32>, dimension: &Dimension, element: u32) -> Result<(), AllocError>
    requires { element < length dimension.now.elements }
    ensures { OnOk result
        (leaves.new.items ≡ leaves.old.items ++ filter (is_leaf dimension.now) (element ∷ [])) }
{
    if dimension.is_leaf(element) {
        leaves.push(element)?;
    }
    Ok(())
}
