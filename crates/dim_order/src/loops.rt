ghost use Rattle.std.specs.Prelude.{◌≡◌, ◌<◌, ◌^◌, length, IfOk};
ghost use Rattle.dim_order.specs.Inside.Ranks.{AreRanks};
ghost use Rattle.dim_order.specs.Loops.{lies_on_loop, first_on_loop, ArePartsWithin};

use crate::Components;
use crate::growth::grow;
use crate::joining::Joining;
use crate::ranks::{are_below, rank_at, ranks_of};
use std::alloc::{AllocError, Global};

/// The element of least index that lies on a loop of components, or None where none does. It takes a few passes over
/// the components.
pub fn first_on_loop(alloc: Global, lists: &[Components]) -> Result<Option<u32>, AllocError>
    requires few { length lists.now < 2 ^ 32 }
    requires within { ArePartsWithin lists.now }
    ensures { IfOk result (λ found. found ≡ first_on_loop lists.now) }
{
    let ranks = ranks_of(alloc, lists)?;
    for element in 0..lists.len() {
        if is_level_on_loop(alloc, lists, &ranks, element as u32)? {
            return Ok(Some(element as u32));
        }
    }
    Ok(None)
}

// The same as `is_on_loop`, and quicker for the elements whose components all have a lower rank: no way leads up again.
fn is_level_on_loop(
    alloc: Global,
    lists: &[Components],
    ranks: &[u32],
    element: u32,
) -> Result<bool, AllocError>
    requires few { length lists.now < 2 ^ 32 }
    requires within { ArePartsWithin lists.now }
    requires ranks { AreRanks lists.now ranks.now }
    requires there { element < length lists.now }
    ensures { IfOk result (λ on. on ≡ lies_on_loop lists.now element) }
{
    let parts = lists[element as usize].as_slice();
    if are_below(parts, ranks, rank_at(ranks, element)) {
        return Ok(false);
    }
    is_on_loop(alloc, lists, element)
}

fn is_on_loop(alloc: Global, lists: &[Components], element: u32) -> Result<bool, AllocError>
    requires few { length lists.now < 2 ^ 32 }
    requires within { ArePartsWithin lists.now }
    requires there { element < length lists.now }
    ensures { IfOk result (λ on. on ≡ lies_on_loop lists.now element) }
{
    let leading = grow(alloc, Joining::WhenLeadingTo(element), lists)?;
    Ok(leading.has(element))
}
