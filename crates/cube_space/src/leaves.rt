ghost use Rattle.std.specs.Prelude.{◌≡◌, ◌<◌, All, IsTrue, length};
ghost use Rattle.cube_space.specs.Radix.{are_digits};
ghost use Rattle.cube_space.specs.Layout.{axes_of, sizes_of};
ghost use Rattle.cube_space.specs.Cells.{are_leaves};

use dim_core::Dimension;

/// Whether each of these elements, one of each of these dimensions, is a leaf.
pub fn are_leaves(dimensions: &[Dimension], dims: &[u32], elements: &[u32]) -> bool
    requires in_range { All (λ dim. dim < length dimensions.now) dims.now }
    requires elements { IsTrue (are_digits (sizes_of (axes_of dimensions.now dims.now)) elements.now) }
    ensures { result ≡ are_leaves (axes_of dimensions.now dims.now) elements.now }
{
    for (i, dim) in dims.iter().enumerate() {
        if !dimensions[*dim as usize].is_leaf(elements[i]) {
            return false;
        }
    }
    true
}
