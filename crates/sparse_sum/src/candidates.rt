ghost use Rattle.std.specs.Prelude.{◌≡◌, ◌+◌, ◌*◌, ◌<◌, ◌≤◌, ◌^◌, ◌*ℤ◌, nat_le, true, All, length, map, find, drop};
ghost use Rattle.std.specs.Prelude.{IfSome, MatchOption, Some, option_map, slice_get, unsigned_abs};
ghost use Rattle.dim_core.specs.Outline.{Outline};
ghost use Rattle.dim_weights.specs.Coefficients.{coef};
ghost use Rattle.cube_space.specs.Layout.{axes_of, sizes_of};
ghost use Rattle.cube_space.specs.Cells.{IsCell, cube_of, size_of};
ghost use Rattle.cube_space.specs.Radix.{product, are_digits};
ghost use Rattle.dim_weights.specs.Table.{IsRising};
ghost use Rattle.rule_model.specs.Weights.{AreWeightsOf, weight, greatest_coef, weight_product, most_weight_product};
ghost use Rattle.sparse_sum.specs.Inside.First.{IsClear, IsFirst};
ghost use Rattle.sparse_sum.specs.Inside.Numbers.{weight_at};

use cube_space::{MAX_DIMENSIONS, Space};
use dim_weights::Weights;

/// The first cell at or above a number that counts in a cell, with its weight. It is a leaf cell.
pub fn leaf_from(space: &Space, weights: &[Weights], cell: u64, from: u64) -> Option<(u64, i64)>
    requires weights { AreWeightsOf space.now.dimensions weights.now }
    requires cell { IsCell space.now cell }
    requires product { weight_product space.now (cube_of space.now cell) ≤ most_weight_product }
    ensures first { MatchOption result (IsClear (weight space.now cell) from (size_of space.now))
        (λ found. IsFirst (weight space.now cell) (size_of space.now) from found) }
    ensures size { IfSome result (λ found. unsigned_abs found.1 ≤ most_weight_product) }
{
    let _cells = space.size();
    let mut at = [0u32; MAX_DIMENSIONS];
    let cube = space.place(cell, &mut at);
    let (first, cells) = (space.first(cube), space.cells(cube));
    let begin = from.saturating_sub(first);
    if begin >= cells {
        return None;
    }
    let dims = space.shape(cube).dims.as_slice();
    match first_leaf(space, weights, dims, &at[..dims.len()], cells, begin) {
        Some((number, weight)) => Some((first + number, weight)),
        None => None,
    }
}

/// How often a cell counts in another.
pub fn weight_of(space: &Space, weights: &[Weights], cell: u64, leaf: u64) -> i64
    requires weights { AreWeightsOf space.now.dimensions weights.now }
    requires cell { IsCell space.now cell }
    requires product { weight_product space.now (cube_of space.now cell) ≤ most_weight_product }
    requires leaf { IsCell space.now leaf }
    ensures value { result ≡ weight space.now cell leaf }
    ensures size { unsigned_abs result ≤ most_weight_product }
{
    match leaf_from(space, weights, cell, leaf) {
        Some((found, weight)) if found == leaf => weight,
        _ => 0,
    }
}

// The first number at or above this one that counts in the cell of these elements, one of each of these dimensions,
// which have so many cells.
#[cycle(first_leaf)]
fn first_leaf(
    space: &Space,
    weights: &[Weights],
    dims: &[u32],
    at: &[u32],
    cells: u64,
    from: u64,
) -> Option<(u64, i64)>
    requires weights { AreWeightsOf space.now.dimensions weights.now }
    requires dims { All (λ dim. dim < length space.now.dimensions) dims.now }
    requires at { are_digits (sizes_of (axes_of space.now.dimensions dims.now)) at.now ≡ true }
    requires small { product (map greatest_coef (axes_of space.now.dimensions dims.now)) ≤ most_weight_product }
    requires cells { cells ≡ product (sizes_of (axes_of space.now.dimensions dims.now)) }
    requires from { from < cells }
    ensures first { MatchOption result
        (IsClear (weight_at (axes_of space.now.dimensions dims.now) at.now) from cells)
        (λ found. IsFirst (weight_at (axes_of space.now.dimensions dims.now) at.now) cells from found) }
    ensures size { IfSome result (λ found.
        unsigned_abs found.1 ≤ product (map greatest_coef (axes_of space.now.dimensions dims.now))) }
{
    if dims.is_empty() {
        return Some((0, 1));
    }
    let (dim, element) = (dims[0], at[0]);
    let (others, below) = (rest_of(dims), rest_of(at));
    let worth = worth_of(space, dims, cells);
    let (digit, rest) = (from / worth, from % worth);
    let Some(row) = row_from(space, weights, dim, element, digit) else {
        return None;
    };
    if u64::from(row.0) > digit {
        let found = first_leaf(space, weights, others, below, worth, 0);
        return joined(row, worth, found);
    }
    let here = first_leaf(space, weights, others, below, worth, rest);
    if here.is_some() {
        return joined(row, worth, here);
    }
    if rest == 0 {
        return None;
    }
    let Some(later) = row_from(space, weights, dim, element, digit + 1) else {
        return None;
    };
    let found = first_leaf(space, weights, others, below, worth, 0);
    joined(later, worth, found)
}

// All but the first.
fn rest_of(list: &[u32]) -> &[u32]
    requires { 0 < length list.now }
    ensures { result.now ≡ drop 1 list.now }
{
    &list[1..]
}

// How many cells of these dimensions have the same element in the first one.
fn worth_of(space: &Space, dims: &[u32], cells: u64) -> u64
    requires some { 0 < length dims.now }
    requires dims { All (λ dim. dim < length space.now.dimensions) dims.now }
    requires cells { cells ≡ product (sizes_of (axes_of space.now.dimensions dims.now)) }
    requires filled { 0 < cells }
    ensures { result ≡ product (sizes_of (axes_of space.now.dimensions (drop 1 dims.now))) }
{
    cells / u64::from(space.dimension(dims[0]).len())
}

// The first leaf at or above this number that counts in an element of a dimension, with its coefficient.
fn row_from(
    space: &Space,
    weights: &[Weights],
    dim: u32,
    element: u32,
    from: u64,
) -> Option<(u32, i64)>
    requires weights { AreWeightsOf space.now.dimensions weights.now }
    requires dim { dim < length space.now.dimensions }
    requires element { (d : Outline) → slice_get space.now.dimensions dim ≡ Some d → element < length d.elements }
    ensures first { (d : Outline) → slice_get space.now.dimensions dim ≡ Some d
        → MatchOption result (IsClear (coef d element) from (length d.elements))
        (λ row. IsFirst (coef d element) (length d.elements) from row) }
    ensures size { (d : Outline) → slice_get space.now.dimensions dim ≡ Some d
        → IfSome result (λ row. unsigned_abs row.1 ≤ greatest_coef d) }
{
    first_row(weights[dim as usize].leaves(element), from)
}

// The first leaf at or above this one.
fn first_row(leaves: &[(u32, i64)], from: u64) -> Option<(u32, i64)>
    requires { IsRising leaves.now }
    ensures { result ≡ find (λ pair. nat_le from pair.0) leaves.now }
{
    match guessed_row(leaves, from) {
        Some(row) => Some(row),
        None => searched_row(leaves, from),
    }
}

// The first leaf at or above this one, where it is the first of all, or no number is left out from there to this one.
fn guessed_row(leaves: &[(u32, i64)], from: u64) -> Option<(u32, i64)>
    requires { IsRising leaves.now }
    ensures { IfSome result (λ row. Some row ≡ find (λ pair. nat_le from pair.0) leaves.now) }
{
    let Some(first) = leaves.first().copied() else {
        return None;
    };
    if u64::from(first.0) >= from {
        return Some(first);
    }
    let place = from - u64::from(first.0);
    let Some(row) = row_at(leaves, place as usize) else {
        return None;
    };
    if u64::from(row.0) == from {
        return Some(row);
    }
    None
}

// The leaf at a place, if there is one.
fn row_at(leaves: &[(u32, i64)], place: usize) -> Option<(u32, i64)>
    ensures { result ≡ slice_get leaves.now place }
{
    leaves.get(place).copied()
}

// The first leaf at or above this one, by a binary search.
fn searched_row(leaves: &[(u32, i64)], from: u64) -> Option<(u32, i64)>
    requires { IsRising leaves.now }
    ensures { result ≡ find (λ pair. nat_le from pair.0) leaves.now }
{
    let place = leaves.partition_point(|pair| u64::from(pair.0) < from);
    leaves[place..].first().copied()
}

// A number behind a leaf's place in its dimension, and how much both count together.
fn joined(row: (u32, i64), worth: u64, found: Option<(u64, i64)>) -> Option<(u64, i64)>
    requires room { IfSome found (λ found. row.0 * worth + found.0 < 2 ^ 64) }
    requires size { IfSome found (λ found. unsigned_abs (row.1 *ℤ found.1) ≤ most_weight_product) }
    ensures { result ≡ option_map (λ found. (row.0 * worth + found.0, row.1 *ℤ found.1)) found }
{
    match found {
        Some((number, weight)) => Some((u64::from(row.0) * worth + number, row.1 * weight)),
        None => None,
    }
}
