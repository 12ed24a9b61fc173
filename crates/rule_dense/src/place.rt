ghost use Rattle.std.specs.Prelude.{◌≡◌, ◌≤◌, true, length, take, Some, All, ◌<◌, slice_get, slice_index_or};
ghost use Rattle.cube_space.specs.Cells.{IsCell, IsSpace, cube_of, elements_of};
ghost use Rattle.cube_space.specs.Layout.{axes, axes_of, sizes_of, most_dimensions};
ghost use Rattle.cube_space.specs.Radix.{are_digits};

use cube_space::{MAX_DIMENSIONS, Space};

/// The cube of a cell and the numbers of its dimensions. The cell's elements are put into the first places of `at`.
pub fn place_of<'a>(space: &'a Space, cell: u64, at: &mut [u32; MAX_DIMENSIONS]) -> (u32, &'a [u32])
    requires { IsCell space.now cell }
    ensures cube { result.0 ≡ cube_of space.now cell }
    ensures there { result.0 < length space.now.cubes }
    ensures few { length result.1.now ≤ most_dimensions }
    ensures dims { All (λ dim. dim < length space.now.dimensions) result.1.now }
    ensures digits { are_digits (sizes_of (axes_of space.now.dimensions result.1.now))
        (take (length result.1.now) at.new) ≡ true }
    ensures axes { axes_of space.now.dimensions result.1.now ≡ axes space.now (cube_of space.now cell) }
    ensures elements { take (length result.1.now) at.new ≡ elements_of space.now cell }
{
    // a space says of itself what its cubes keep
    let _cells = space.size();
    let cube = space.place(cell, at);
    (cube, space.shape(cube).dims.as_slice())
}

/// What a list has at a place: 0 past its end.
pub fn number_in(list: &[u32], place: usize) -> u32
    ensures { result ≡ slice_index_or list.now place 0 }
{
    list.get(place).copied().unwrap_or(0)
}
