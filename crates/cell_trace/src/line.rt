ghost use Rattle.std.specs.Prelude.{◌≡◌, ◌++◌, [], ◌∷◌, OnOk};

use cube_fixed::Value;
use std::alloc::AllocError;

/// A cell that is added up.
#[derive(Clone, Copy, PartialEq, Eq)]
pub struct Part {
    pub cell: u64,
    /// How often it counts.
    pub weight: i64,
    pub value: Value,
}

/// A line of a trace.
#[derive(Clone, Copy, PartialEq, Eq)]
pub enum Line {
    /// This statement of the cell's cube is entered, counted from 1.
    Rule(u32),
    /// The reference of this number reads a cell of this value. References of a statement are counted from 1 over both
    /// parts, as in refusals.
    Reads(u32, u64, Value),
    /// The reference of this number names no cell, so it is 0.
    ReadsNothing(u32),
    /// The components of the cell's element are added up, in the dimension at this place of the cube.
    Children(u32),
    /// The leaf cell's own number is taken, and whether one is stored.
    Input(bool),
    /// The leaf cells below the consolidated cell are added up.
    Sum,
    /// One of what is added up.
    Part(Part),
    /// So many more are added up, which aren't listed.
    More(u64),
}

/// At most so many parts of a sum are listed.
pub const MAX_PARTS: usize = 1_000;

/// Puts a line behind the others.
pub(crate) fn put(lines: &mut Vec<Line>, line: Line) -> Result<(), AllocError>
    ensures { OnOk result (lines.new.items ≡ lines.old.items ++ line ∷ []) }
{
    // by a slice: where `push` gives a line back, the prover misses the module of its value
    lines.extend_from_slice(&[line])
}
