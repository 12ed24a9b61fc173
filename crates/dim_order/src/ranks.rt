ghost use Rattle.std.specs.Prelude.{◌≡◌, ◌<◌, ◌^◌, length, slice_index, IfOk, IsTrue};
ghost use Rattle.dim_order.specs.Inside.Ranks.{are_below, AreRanks};

use crate::Components;
use crate::likely_ranks::likely_ranks;
use std::alloc::{AllocError, Global};

/// Ranks of elements, of which no component has a greater one. An element has rank 0 where the list has none for it.
pub fn ranks_of(alloc: Global, lists: &[Components]) -> Result<Vec<u32>, AllocError>
    requires few { length lists.now < 2 ^ 32 }
    ensures { IfOk result (λ ranks. AreRanks lists.now ranks.items) }
{
    let likely = likely_ranks(alloc, lists)?;
    if are_ranks(lists, &likely) {
        Ok(likely)
    } else {
        Ok(Vec::new(alloc))
    }
}

fn are_ranks(lists: &[Components], ranks: &[u32]) -> bool
    requires few { length lists.now < 2 ^ 32 }
    ensures { IsTrue result → AreRanks lists.now ranks.now }
{
    for element in 0..lists.len() {
        let rank = rank_at(ranks, element as u32);
        if !are_below(lists[element].as_slice(), ranks, rank + 1) {
            return false;
        }
    }
    true
}

/// Whether each of these components has a rank below a bound.
pub fn are_below(parts: &[(u32, i64)], ranks: &[u32], bound: u64) -> bool
    ensures { result ≡ are_below ranks.now bound parts.now }
{
    parts.iter().all(|part| rank_at(ranks, part.0) < bound)
}

/// The rank of an element.
pub fn rank_at(ranks: &[u32], element: u32) -> u64
    ensures rank { result ≡ slice_index ranks.now element }
    ensures small { result < 2 ^ 32 }
{
    u64::from(ranks.get(element as usize).copied().unwrap_or(0))
}
