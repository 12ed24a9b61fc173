ghost use Rattle.std.specs.Prelude.{◌≡◌, ◌<◌, ◌^◌, All, IfOk, length, slice_index};
ghost use Rattle.dim_order.specs.Levels.{AreLevels, level_over};
ghost use Rattle.dim_order.specs.Loops.{IsOrder};

use crate::Components;
use std::alloc::{AllocError, Global};

/// The level of each element, by index: 0 without components, and otherwise one more than the greatest level of a
/// component.
pub fn levels_of(alloc: Global, lists: &[Components], order: &[u32]) -> Result<Vec<u32>, AllocError>
    requires few { length lists.now < 2 ^ 32 }
    requires ordered { IsOrder lists.now order.now }
    ensures { IfOk result (λ levels. AreLevels lists.now levels.items) }
{
    let mut levels = vec![in alloc; 0; lists.len()]?;
    for element in order {
        let above = level_over(lists[*element as usize].as_slice(), &levels);
        levels[*element as usize] = above;
    }
    Ok(levels)
}

// One more than the greatest level of these components, or 0 without any.
fn level_over(parts: &[(u32, i64)], levels: &[u32]) -> u32
    requires within { All (λ part. part.0 < length levels.now) parts.now }
    requires small { All (λ level. level < length levels.now) levels.now }
    requires few { length levels.now < 2 ^ 32 }
    ensures { result ≡ level_over (slice_index levels.now) parts.now }
{
    let mut greatest = 0;
    for part in parts {
        greatest = greatest.max(levels[part.0 as usize] + 1);
    }
    greatest
}
