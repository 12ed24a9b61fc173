ghost use Rattle.std.specs.Prelude.{◌≡◌, ◌<◌, length, Some, IfOk, IfSome, slice_get};
ghost use Rattle.bind_arguments.specs.Numbers.{is_below};
ghost use Rattle.dim_core.specs.Outline.{Outline};
ghost use Rattle.load_cells.specs.Found.{AreMarks, IsFoundBelow};

use bind_arguments::elements_below;
use cube_space::Space;
use dim_core::Dimension;
use std::alloc::{AllocError, Global};

/// Which elements of a dimension lie below the one that a load has asked for last. Loops ask for the same one again.
#[derive(Drop)]
pub(crate) struct FoundBelow {
    dim: u32,
    above: u32,
    marks: Vec<bool>,
}

/// Whether an element of a dimension lies below another one, which is kept for the next.
pub(crate) fn is_below(
    alloc: Global,
    space: &Space,
    found: &mut Option<FoundBelow>,
    dim: u32,
    above: u32,
    element: u32,
) -> Result<bool, AllocError>
    requires dim { dim < length space.now.dimensions }
    requires above { IfSome (slice_get space.now.dimensions dim) (λ d. above < length d.elements) }
    requires element { IfSome (slice_get space.now.dimensions dim) (λ d. element < length d.elements) }
    requires found { IfSome found.old (IsFoundBelow space.now) }
    ensures value { IfOk result (λ below.
        IfSome (slice_get space.now.dimensions dim) (λ d. below ≡ is_below d above element)) }
    ensures found { IfSome found.new (IsFoundBelow space.now) }
{
    let dimension = space.dimension(dim);
    if let Some(known) = found {
        if known.dim == dim && known.above == above {
            return Ok(known.marks[element as usize]);
        }
    }
    let marks = elements_below(alloc, dimension, above)?;
    let below = marks[element as usize];
    *found = Some(FoundBelow { dim, above, marks });
    Ok(below)
}
