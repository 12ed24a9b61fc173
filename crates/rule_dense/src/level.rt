ghost use Rattle.std.specs.Prelude.{◌≡◌, ◌+◌, ◌<◌, ◌≤◌, true, length, All, sum_by};
ghost use Rattle.std.specs.List.{zip};
ghost use Rattle.dim_core.specs.Outline.{most_elements, level};
ghost use Rattle.cube_space.specs.Radix.{are_digits};
ghost use Rattle.cube_space.specs.Layout.{axes_of, sizes_of, most_dimensions};
ghost use Rattle.cube_space.specs.Cells.{IsCell};
ghost use Rattle.rule_model.specs.Order.{cell_level, level_count};
ghost use Rattle.rule_dense.specs.Inside.Depths.{most_levels};

use crate::place::place_of;
use cube_space::{MAX_DIMENSIONS, Space};
use dim_core::Dimension;

/// The level of a cell: the levels of its elements together.
#[tactic(auto, unfolding(rule_model::specs::Order::cell_level))]
pub fn cell_level(space: &Space, cell: u64) -> u64
    requires { IsCell space.now cell }
    ensures level { result ≡ cell_level space.now cell }
    ensures most { result ≤ most_levels }
{
    let mut at = [0u32; MAX_DIMENSIONS];
    let (_, dims) = place_of(space, cell, &mut at);
    levels_of(space, dims, &at[..dims.len()])
}

// The levels of these elements, one of each of these dimensions, together.
fn levels_of(space: &Space, dims: &[u32], elements: &[u32]) -> u64
    requires few { length dims.now ≤ most_dimensions }
    requires dims { All (λ dim. dim < length space.now.dimensions) dims.now }
    requires elements { are_digits (sizes_of (axes_of space.now.dimensions dims.now)) elements.now ≡ true }
    ensures sum { result ≡ sum_by (λ p. level p.0 p.1) (zip (axes_of space.now.dimensions dims.now) elements.now) }
    ensures most { result ≤ most_levels }
{
    let mut levels = 0;
    for (place, dim) in dims.iter().enumerate() {
        levels += level_in(space.dimension(*dim), elements[place]);
    }
    levels
}

fn level_in(dimension: &Dimension, element: u32) -> u64
    requires { element < length dimension.now.elements }
    ensures level { result ≡ level dimension.now element }
    ensures most { result ≤ most_elements }
{
    // a dimension says of itself how many elements it has at most
    let _len = dimension.len();
    u64::from(dimension.level(element))
}

/// A number above the level of each cell.
#[tactic(auto, unfolding(rule_model::specs::Order::level_count))]
pub fn level_count(space: &Space) -> u64
    ensures count { result ≡ level_count space.now }
    ensures most { result ≤ most_levels + 1 }
{
    let mut greatest = 0;
    for cell in 0..space.size() {
        greatest = greatest.max(cell_level(space, cell));
    }
    greatest + 1
}
