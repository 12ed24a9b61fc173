ghost use Rattle.std.specs.Prelude.{◌≡◌, ◌<◌, ◌≤◌, IfSome, Some, length, slice_get};
ghost use Rattle.cube_space.specs.Layout.{axes, most_dimensions};
ghost use Rattle.cube_space.specs.Axes.{axis_called};

use crate::space::Space;
use dim_core::Dimension;
use dim_name::Name;

/// How many dimensions a cube has.
pub fn axis_count(space: &Space, cube: u32) -> u32
    requires { cube < length space.now.cubes }
    ensures value { result ≡ length (axes space.now cube) }
    ensures few { result ≤ most_dimensions }
{
    // a space says of itself that it is one
    let _cells = space.size();
    space.shape(cube).dims.as_slice().len() as u32
}

/// The number, among the dimensions of the space, of the dimension of a cube at a place, from 0.
pub fn axis_number(space: &Space, cube: u32, place: u32) -> u32
    requires cube { cube < length space.now.cubes }
    requires place { place < length (axes space.now cube) }
    ensures own { slice_get space.now.dimensions result ≡ slice_get (axes space.now cube) place }
    ensures within { result < length space.now.dimensions }
{
    let _cells = space.size();
    space.shape(cube).dims.as_slice()[place as usize]
}

/// The dimension of a cube at a place, from 0.
pub fn axis(space: &Space, cube: u32, place: u32) -> &Dimension
    requires cube { cube < length space.now.cubes }
    requires place { place < length (axes space.now cube) }
    ensures { slice_get (axes space.now cube) place ≡ Some result.now }
{
    space.dimension(axis_number(space, cube, place))
}

/// The place of the dimension of a cube that has this name, or None where none has it.
pub fn axis_called(space: &Space, cube: u32, name: &Name) -> Option<u32>
    requires { cube < length space.now.cubes }
    ensures place { result ≡ axis_called (axes space.now cube) name.now }
    ensures within { IfSome result (λ place. place < length (axes space.now cube)) }
{
    for place in 0..axis_count(space, cube) {
        if name == axis(space, cube, place).name() {
            return Some(place);
        }
    }
    None
}
