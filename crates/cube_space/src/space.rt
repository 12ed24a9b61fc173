ghost use Rattle.std.specs.Prelude.{◌≡◌, suc, ◌<◌, ◌≤◌, ◌++◌, length, drop, IfOk, IfSome, slice_get};
ghost use Rattle.dim_name.specs.Name.{place_of};
ghost use Rattle.cube_space.specs.Layout.{IsLayout, cube_names, dimension_names};
ghost use Rattle.cube_space.specs.Cells.{IsSpace, IsCell, all_cells, size_of, first_cell, cell_count, cell_number};
ghost use Rattle.cube_space.specs.Cells.{cube_of, elements_of, is_leaf_cell};
ghost use Rattle.cube_space.specs.Refusal.{refusal_of, IsAnsweredBy};

use crate::digits::{are_digits, number_of, write_digits};
use crate::leaves::are_leaves;
use crate::names::{cube_named, dimension_named};
use crate::run::{Run, runs};
use crate::{CubeShape, SpaceFault};
use dim_core::Dimension;
use dim_name::Name;
use std::alloc::Global;
use std::marker::Model;

/// The fewest dimensions of a cube.
pub const MIN_DIMENSIONS: usize = 2;

/// The most dimensions of a cube.
pub const MAX_DIMENSIONS: usize = 16;

/// The most cells of all cubes together.
pub const MAX_MODEL_CELLS: u64 = 1 << 62;

/// The dimensions and the cubes of a model, with a number for each cell. The numbers are one run per cube, in the order
/// of the cubes; within a cube the last dimension runs fastest.
#[derive(Drop)]
pub struct Space {
    dimensions: Vec<Dimension>,
    cubes: Vec<CubeShape>,
    runs: Vec<Run>,
}

impl Model for Space {
    ghost use Rattle.cube_space.specs.Layout.{Layout};
    ghost use Rattle.cube_space.specs.Inside.Kept.{IsNumbered};

    ghost Value = { Layout };

    ghost view = { λ s. record { dimensions = s.dimensions.items; cubes = s.cubes.items } };

    ghost invariant = { λ s. IsNumbered (record {
      dimensions = s.dimensions.items;
      cubes = s.cubes.items;
    }) s.runs.items };
}

impl Space {
    /// A space of these dimensions and cubes. The first cube with a fault is named, with its first cause in this order:
    /// it hasn't 2 to 16 dimensions, it has more than 2^62 cells, the cubes up to it have more than 2^62 cells
    /// together.
    pub fn new(
        alloc: Global,
        dims: Vec<Dimension>,
        cubes: Vec<CubeShape>,
    ) -> Result<Space, SpaceFault>
        requires { IsLayout (record { dimensions = dims.items; cubes = cubes.items }) }
        ensures made { IfOk result (λ space. space ≡ record { dimensions = dims.items; cubes = cubes.items }) }
        ensures answered { IsAnsweredBy (refusal_of (record { dimensions = dims.items; cubes = cubes.items })) result }
    {
        let runs = runs(alloc, &dims, &cubes)?;
        Ok(Space {
            dimensions: dims,
            cubes,
            runs,
        })
    }

    /// How many cells there are. A number below it is a cell's.
    pub fn size(&self) -> u64
        ensures size { result ≡ size_of self.now }
        ensures all { size_of self.now ≡ length (all_cells self.now) }
        ensures valid { IsSpace self.now }
    {
        match self.runs.last() {
            Some(run) => run.end,
            None => 0,
        }
    }

    /// How many cubes there are.
    pub fn cubes(&self) -> u32
        ensures { result ≡ length self.now.cubes }
    {
        self.cubes.len() as u32
    }

    /// How many dimensions there are.
    pub fn dimensions(&self) -> u32
        ensures { result ≡ length self.now.dimensions }
    {
        self.dimensions.len() as u32
    }

    /// The name of a cube and the numbers of its dimensions.
    pub fn shape(&self, cube: u32) -> &CubeShape
        requires { cube < length self.now.cubes }
        ensures { slice_get self.now.cubes cube ≡ Some result.now }
    {
        &self.cubes[cube as usize]
    }

    /// A dimension by its number.
    pub fn dimension(&self, dim: u32) -> &Dimension
        requires { dim < length self.now.dimensions }
        ensures { slice_get self.now.dimensions dim ≡ Some result.now }
    {
        &self.dimensions[dim as usize]
    }

    /// The number of a cube's first cell. A cube without cells has the number that it would begin with.
    pub fn first(&self, cube: u32) -> u64
        requires { cube < length self.now.cubes }
        ensures { result ≡ first_cell self.now cube }
    {
        self.runs[cube as usize].first
    }

    /// How many cells a cube has: none where one of its dimensions has no elements.
    pub fn cells(&self, cube: u32) -> u64
        requires { cube < length self.now.cubes }
        ensures { result ≡ cell_count self.now cube }
    {
        let run = &self.runs[cube as usize];
        run.end - run.first
    }

    /// The number of the cube that has this name, or None where none has it.
    pub fn cube_of(&self, name: &Name) -> Option<u32>
        ensures { result ≡ place_of (cube_names self.now) name.now }
    {
        match cube_named(&self.cubes, name) {
            Some(cube) => Some(cube as u32),
            None => None,
        }
    }

    /// The number of the dimension that has this name, or None where none has it.
    pub fn dimension_of(&self, name: &Name) -> Option<u32>
        ensures { result ≡ place_of (dimension_names self.now) name.now }
    {
        match dimension_named(&self.dimensions, name) {
            Some(dim) => Some(dim as u32),
            None => None,
        }
    }

    /// The number of the cell of this cube and these elements, one of each of its dimensions in their order. None where
    /// there is no such cube, an element is out of range, or there are too many or too few.
    pub fn number(&self, cube: u32, at: &[u32]) -> Option<u64>
        ensures value { result ≡ cell_number self.now cube at.now }
        ensures within { IfSome result (λ cell. IsCell self.now cell) }

        // the number and the place are inverse
        ensures cube { IfSome result (λ cell. cube_of self.now cell ≡ cube) }
        ensures elements { IfSome result (λ cell. elements_of self.now cell ≡ at.now) }
    {
        if cube >= self.cubes() {
            return None;
        }
        let run = &self.runs[cube as usize];
        let sizes = run.sizes.as_slice();
        if !are_digits(sizes, at) {
            return None;
        }
        Some(run.first + number_of(sizes, at))
    }

    /// The cube of a cell, whose elements are put into the first places of `at`. The places past the cube's dimensions
    /// stay as they were.
    pub fn place(&self, cell: u64, at: &mut [u32; MAX_DIMENSIONS]) -> u32
        requires { IsCell self.now cell }
        ensures cube { result ≡ cube_of self.now cell }
        ensures elements { at.new ≡ elements_of self.now cell ++ drop (length (elements_of self.now cell)) at.old }

        // the number and the place are inverse
        ensures number { cell_number self.now result (elements_of self.now cell) ≡ Some cell }
    {
        let cube = self.run_of(cell);
        let run = &self.runs[cube];
        write_digits(run.sizes.as_slice(), cell - run.first, at);
        cube as u32
    }

    /// Whether all elements of a cell are leaves.
    pub fn is_leaf(&self, cell: u64) -> bool
        requires { IsCell self.now cell }
        ensures { result ≡ is_leaf_cell self.now cell }
    {
        let mut at = [0; MAX_DIMENSIONS];
        let cube = self.place(cell, &mut at);
        let dims = self.shape(cube).dims.as_slice();
        are_leaves(&self.dimensions, dims, &at[..dims.len()])
    }

    // The cube whose run has the cell.
    fn run_of(&self, cell: u64) -> usize
        requires { IsCell self.now cell }
        ensures within { result < length self.now.cubes }
        ensures from { first_cell self.now result ≤ cell }
        ensures before { cell < first_cell self.now (suc result) }
    {
        self.runs.partition_point(|run| run.end <= cell)
    }
}
