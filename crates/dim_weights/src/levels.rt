ghost use Rattle.std.specs.Prelude.{◌≡◌, IfOk, OnOk, slice_index};
ghost use Rattle.std.specs.List.{range_with_len};
ghost use Rattle.dim_weights.specs.Inside.Levels.{IsByLevel, IsSortedByLevel};

use dim_core::Dimension;
use std::alloc::{AllocError, Global};

/// All elements by level, and those of one level by index.
pub fn elements_by_level(alloc: Global, dimension: &Dimension) -> Result<Vec<u32>, AllocError>
    ensures { IfOk result (λ elements. IsByLevel dimension.now elements.items) }
{
    let mut elements = elements_below(alloc, dimension.len())?;
    sort_by_level(dimension.levels(), &mut elements)?;
    Ok(elements)
}

fn elements_below(alloc: Global, count: u32) -> Result<Vec<u32>, AllocError>
    ensures { IfOk result (λ elements. elements.items ≡ range_with_len 0 count) }
{
    let mut elements = Vec::with_capacity(alloc, count as usize)?;
    for element in 0..count {
        elements.push(element)?;
    }
    Ok(elements)
}

// Elements of one level stay in their order.
fn sort_by_level(levels: &[u32], elements: &mut Vec<u32>) -> Result<(), AllocError>
    ensures { OnOk result (IsSortedByLevel levels.now elements.old.items elements.new.items) }
{
    elements.sort_by_key(|element| level_at(levels, *element))?;
    Ok(())
}

fn level_at(levels: &[u32], element: u32) -> u32
    ensures { result ≡ slice_index levels.now element }
{
    levels.get(element as usize).copied().unwrap_or(0)
}
