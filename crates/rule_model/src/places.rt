ghost use Rattle.std.specs.Prelude.{◌≡◌, ◌≤◌, take};
ghost use Rattle.cube_space.specs.Cells.{IsCell, cube_of, elements_of};
ghost use Rattle.cube_space.specs.Layout.{most_dimensions};

use crate::model::Model;
use cube_space::MAX_DIMENSIONS;

/// The cube of a cell, and how many dimensions it has. The cell's elements are put into the first places of `at`.
pub fn place_of(model: &Model, cell: u64, at: &mut [u32; MAX_DIMENSIONS]) -> (u32, usize)
    requires { IsCell model.now.space cell }
    ensures cube { result.0 ≡ cube_of model.now.space cell }
    ensures few { result.1 ≤ most_dimensions }
    ensures elements { take result.1 at.new ≡ elements_of model.now.space cell }
{
    let space = model.space();
    let cube = space.place(cell, at);
    (cube, space.shape(cube).dims.as_slice().len())
}
