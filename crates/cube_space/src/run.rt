ghost use Rattle.std.specs.Prelude.{◌≡◌, ◌<◌, ◌≤◌, All, IfOk, length, map, slice_index};
ghost use Rattle.cube_space.specs.Radix.{product};
ghost use Rattle.cube_space.specs.Layout.{IsLayout, most_model_cells};
ghost use Rattle.cube_space.specs.Inside.Kept.{IsNumbered, IsRunFrom};
ghost use Rattle.cube_space.specs.Refusal.{fault_of, refusal_of, IsAnsweredBy};

use crate::numbering::{element_counts, product, sizes};
use crate::{CubeShape, MAX_DIMENSIONS, MAX_MODEL_CELLS, MIN_DIMENSIONS, SpaceFault};
use dim_core::Dimension;
use lists::ListOf;
use std::alloc::Global;

/// The cells of a cube: the number of the first, the number after the last, and how many elements each dimension has.
#[derive(Drop)]
pub struct Run {
    pub first: u64,
    pub end: u64,
    pub sizes: ListOf<u32>,
}

/// The runs of all cubes, or the fault of the first cube that has one.
pub fn runs(
    alloc: Global,
    dimensions: &[Dimension],
    cubes: &[CubeShape],
) -> Result<Vec<Run>, SpaceFault>
    requires { IsLayout (record { dimensions = dimensions.now; cubes = cubes.now }) }
    ensures numbered { IfOk result (λ runs. IsNumbered (record {
      dimensions = dimensions.now;
      cubes = cubes.now;
    }) runs.items) }
    ensures answered { IsAnsweredBy (refusal_of (record { dimensions = dimensions.now; cubes = cubes.now })) result }
{
    let counts = element_counts(alloc, dimensions)?;
    let mut runs = Vec::with_capacity(alloc, cubes.len())?;
    let mut first: u64 = 0;
    for (cube, shape) in cubes.iter().enumerate() {
        let run = run_from(alloc, &counts, shape.dims.as_slice(), cube as u32, first)?;
        first = run.end;
        runs.push(run)?;
    }
    Ok(runs)
}

// The run of a cube over these dimensions after the cells before `first`, or the fault of this cube.
fn run_from(
    alloc: Global,
    counts: &[u32],
    dims: &[u32],
    cube: u32,
    first: u64,
) -> Result<Run, SpaceFault>
    requires in_range { All (λ dim. dim < length counts.now) dims.now }
    requires before { first ≤ most_model_cells }
    ensures run { IfOk result (λ run. IsRunFrom (map (slice_index counts.now) dims.now) first run) }
    ensures answered { IsAnsweredBy (fault_of cube (length dims.now) (product (map
        (slice_index counts.now) dims.now)) first) result }
{
    if dims.len() < MIN_DIMENSIONS || dims.len() > MAX_DIMENSIONS {
        return Err(SpaceFault::DimensionCount(cube));
    }
    let sizes = sizes(alloc, counts, dims)?;
    let cells = product(sizes.as_slice());
    if cells > MAX_MODEL_CELLS {
        return Err(SpaceFault::CubeTooLarge(cube));
    }
    if first + cells > MAX_MODEL_CELLS {
        return Err(SpaceFault::ModelTooLarge(cube));
    }
    let end = first + cells;
    Ok(Run { first, end, sizes })
}
