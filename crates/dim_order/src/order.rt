ghost use Rattle.std.specs.Prelude.{◌≡◌, ◌<◌, ◌^◌, ℕ, None, length, IfOk, IfSome, IfNone};
ghost use Rattle.dim_order.specs.Loops.{IsOrder, first_on_loop, ArePartsWithin};

use crate::Components;
use crate::growth::grow;
use crate::joining::Joining;
use std::alloc::{AllocError, Global};

/// An order of all elements in which each component comes before what it is a component of, or None where a loop of
/// components forbids one. It takes one pass over the components for each change of direction that a chain of them
/// makes against the order of the elements: one where components are defined first.
pub fn order_of(alloc: Global, lists: &[Components]) -> Result<Option<Vec<u32>>, AllocError>
    requires few { length lists.now < 2 ^ 32 }
    requires within { ArePartsWithin lists.now }
    ensures order { IfOk result (λ found. IfSome found (λ order. IsOrder lists.now order.items)) }
    ensures no_order { IfOk result (λ found. IfNone found (first_on_loop lists.now ≡ None → ⊥)) }
{
    let members = grow(alloc, Joining::AfterAllParts, lists)?;
    if members.len() == lists.len() {
        Ok(Some(members.into_list()))
    } else {
        Ok(None)
    }
}
