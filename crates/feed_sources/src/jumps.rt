ghost use Rattle.std.specs.Prelude.{◌≡◌, ℕ, ◌+◌, ◌<◌, ◌≤◌, ◌%◌, ◌≢◌, ◌^◌, true, List, length, All, IfSome};
ghost use Rattle.cube_space.specs.Layout.{axes_of, sizes_of, most_dimensions};
ghost use Rattle.cube_space.specs.Radix.{product, are_digits, number_of};
ghost use Rattle.feed_sources.specs.Inside.Choices.{AreChosen};

use cube_space::{MAX_DIMENSIONS, Space};

/// Where the elements of this number aren't all the chosen ones, a later number: none from this one to before the later
/// has all of them. It goes by the first dimension in which the element is another one.
pub fn jump_from(
    space: &Space,
    dims: &[u32],
    choices: &[Option<u32>; MAX_DIMENSIONS],
    cells: u64,
    number: u64,
) -> Option<u64>
    requires few { length dims.now ≤ most_dimensions }
    requires dims { All (λ dim. dim < length space.now.dimensions) dims.now }
    requires cells { cells ≡ product (sizes_of (axes_of space.now.dimensions dims.now)) }
    requires number { number < cells }
    ensures later { IfSome result (λ later. number < later) }
    ensures passed { IfSome result (λ later. (elements : List ℕ)
        → are_digits (sizes_of (axes_of space.now.dimensions dims.now)) elements ≡ true
        → number ≤ number_of (sizes_of (axes_of space.now.dimensions dims.now)) elements
        → number_of (sizes_of (axes_of space.now.dimensions dims.now)) elements < later
        → AreChosen choices.now elements → ⊥) }
{
    let mut worth = cells;
    'places: for place in 0..dims.len() {
        let size = u64::from(space.dimension(dims[place]).len());
        worth /= size;
        if let Some(element) = choices[place] {
            let gap = gap_to(number / worth % size, u64::from(element), size);
            if gap > 0 {
                return Some((number - number % worth).saturating_add(gap.saturating_mul(worth)));
            }
        }
    }
    None
}

// How many digits on the chosen one is, where digits of this size go round: 0 where it is this digit.
fn gap_to(digit: u64, chosen: u64, size: u64) -> u64
    requires digit { digit < size }
    requires room { size + chosen < 2 ^ 64 }
    ensures { (k : ℕ) → k < result → (digit + k) % size ≢ chosen }
{
    if chosen >= digit {
        chosen - digit
    } else {
        size - digit + chosen
    }
}
