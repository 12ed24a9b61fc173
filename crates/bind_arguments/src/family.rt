ghost use Rattle.std.specs.Prelude.{◌≡◌, ◌<◌, ℕ, None, length, get_or, IfOk, slice_get};
ghost use Rattle.dim_core.specs.Outline.{Outline};
ghost use Rattle.bind_arguments.specs.Family.{next_leaf, parents_of};
ghost use Rattle.bind_arguments.specs.Inside.Families.{IsFamilyOf};

use crate::parents::parents_over;
use dim_core::Dimension;
use std::alloc::{AllocError, Global};

/// The parents and the next leaf of each element of a dimension.
#[derive(Drop)]
pub(crate) struct Family {
    parents: Vec<Vec<u32>>,
    next_leaves: Vec<Option<u32>>,
}

impl Family {
    /// That of this dimension.
    pub(crate) fn new(alloc: Global, dimension: &Dimension) -> Result<Family, AllocError>
        ensures { IfOk result (λ family. IsFamilyOf dimension.now family) }
    {
        Ok(Family {
            parents: parents_over(alloc, dimension)?,
            next_leaves: next_leaves(alloc, dimension)?,
        })
    }

    /// The parent of an element at this place, from 0.
    pub(crate) fn parent_at(&self, element: u32, place: u64) -> Option<u32>
        ensures { (d : Outline) → IsFamilyOf d self.now → element < length d.elements
            → result ≡ slice_get (parents_of d element) place }
    {
        match self.parents.get(element as usize) {
            Some(parents) => parents.get(place as usize).copied(),
            None => None,
        }
    }

    /// The first leaf behind an element.
    pub(crate) fn next_leaf(&self, element: u32) -> Option<u32>
        ensures { (d : Outline) → IsFamilyOf d self.now → element < length d.elements → result ≡ next_leaf d element }
    {
        match self.next_leaves.get(element as usize) {
            Some(leaf) => *leaf,
            None => None,
        }
    }
}

// The first leaf behind each element.
fn next_leaves(alloc: Global, dimension: &Dimension) -> Result<Vec<Option<u32>>, AllocError>
    ensures len { IfOk result (λ leaves. length leaves.items ≡ length dimension.now.elements) }
    ensures leaves { IfOk result (λ leaves. (element : ℕ) → element < length leaves.items
        → get_or leaves.items element None ≡ next_leaf dimension.now element) }
{
    let len = dimension.len();
    let mut leaves = Vec::from_elem(alloc, None, len as usize)?;
    let mut next = None;
    for done in 0..len {
        let element = len - 1 - done;
        leaves[element as usize] = next;
        if dimension.is_leaf(element) {
            next = Some(element);
        }
    }
    Ok(leaves)
}
