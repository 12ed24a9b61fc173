ghost use Rattle.std.specs.Prelude.{◌≡◌, ◌<◌, ◌≤◌, ◌^◌, All, IfOk, OnOk, length, map, min, slice_index};
ghost use Rattle.dim_core.specs.Outline.{IsDimension};
ghost use Rattle.cube_space.specs.Radix.{product};
ghost use Rattle.cube_space.specs.Layout.{sizes_of};

use dim_core::Dimension;
use lists::ListOf;
use std::alloc::{AllocError, Global};

/// How many elements each dimension has.
pub fn element_counts(alloc: Global, dimensions: &[Dimension]) -> Result<Vec<u32>, AllocError>
    ensures counts { IfOk result (λ counts. counts.items ≡ sizes_of dimensions.now) }
    ensures valid { OnOk result (All IsDimension dimensions.now) }
{
    let mut counts = Vec::with_capacity(alloc, dimensions.len())?;
    for dimension in dimensions {
        counts.push(dimension.len())?;
    }
    Ok(counts)
}

/// How many elements each of these dimensions has, where the counts are those of all dimensions.
pub fn sizes(alloc: Global, counts: &[u32], dims: &[u32]) -> Result<ListOf<u32>, AllocError>
    requires { All (λ dim. dim < length counts.now) dims.now }
    ensures { IfOk result (λ sizes. sizes ≡ map (slice_index counts.now) dims.now) }
{
    let mut sizes = Vec::with_capacity(alloc, dims.len())?;
    for dim in dims {
        sizes.push(counts[*dim as usize])?;
    }
    Ok(ListOf::new(sizes))
}

/// The product of the sizes, or the greatest number where it is beyond that.
pub fn product(sizes: &[u32]) -> u64
    ensures { result ≡ min (product sizes.now) u64.MAX }
{
    let mut product: u64 = 1;
    for size in sizes {
        product = product.saturating_mul(u64::from(*size));
    }
    product
}
