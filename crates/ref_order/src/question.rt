use crate::kinds::ByKinds;
use crate::reads::Read;

/// A question for the most that the cell which is read has more than its cell, by their elements in one dimension.
#[derive(Clone, Copy)]
pub struct Question<'a> {
    pub read: Read<'a>,
    /// The position of the order; behind the last one stands the level.
    pub place: u32,
    pub dim: usize,
    /// Whether the cell is a leaf cell: its number at the position is that of such a cell.
    pub own: bool,
    /// The same of the cell that is read.
    pub its: bool,
}

/// A question, and its answer.
#[derive(Clone, Copy)]
pub struct Answer<'a> {
    pub asked: Question<'a>,
    pub numbers: ByKinds,
}
