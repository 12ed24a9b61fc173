ghost use Rattle.std.specs.Prelude.{◌≡◌, ◌<◌, ◌≤◌, ◌^◌, IsTrue, length, take, drop};
ghost use Rattle.cube_space.specs.Radix.{product, are_digits, number_of};
ghost use Rattle.cube_space.specs.Layout.{most_dimensions};

use crate::MAX_DIMENSIONS;

/// Whether there is one digit for each size, and each is below its size.
pub fn are_digits(sizes: &[u32], digits: &[u32]) -> bool
    ensures { result ≡ are_digits sizes.now digits.now }
{
    if sizes.len() != digits.len() {
        return false;
    }
    for (i, size) in sizes.iter().enumerate() {
        if digits[i] >= *size {
            return false;
        }
    }
    true
}

/// The number that the digits write.
pub fn number_of(sizes: &[u32], digits: &[u32]) -> u64
    requires digits { IsTrue (are_digits sizes.now digits.now) }
    requires fits { product sizes.now < 2 ^ 64 }
    ensures { result ≡ number_of sizes.now digits.now }
{
    let mut number: u64 = 0;
    for (i, size) in sizes.iter().enumerate() {
        number = number * u64::from(*size) + u64::from(digits[i]);
    }
    number
}

/// Writes the digits of the number into the first places, and leaves the others.
pub fn write_digits(sizes: &[u32], number: u64, places: &mut [u32; MAX_DIMENSIONS])
    requires few { length sizes.now ≤ most_dimensions }
    requires within { number < product sizes.now }
    ensures digits { IsTrue (are_digits sizes.now (take (length sizes.now) places.new)) }
    ensures number { number_of sizes.now (take (length sizes.now) places.new) ≡ number }
    ensures others { drop (length sizes.now) places.new ≡ drop (length sizes.now) places.old }
{
    let mut rest = number;
    for i in (0..sizes.len()).rev() {
        let size = u64::from(sizes[i]);
        places[i] = (rest % size) as u32;
        rest /= size;
    }
}
