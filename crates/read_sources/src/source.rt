use ref_order::Read;
use rule_model::Area;

/// What a part of a statement reads at the same lag.
#[derive(Clone, Copy)]
pub struct Source<'a> {
    /// The cube of the statement, and its area.
    pub cube: u32,
    pub area: &'a Area,
    /// The number of the statement in the cube, from 1, and that of the reference in the statement, from 1.
    pub statement: u32,
    pub reference: u32,
    /// Whether it is read for leaf cells.
    pub kind: bool,
    pub read: Read<'a>,
    /// Which of the cells that are read are meant: leaf cells, consolidated cells, or all where the cells of their cube
    /// have no kinds.
    pub its: Option<bool>,
    /// Whether consolidated cells are meant, and no fixed argument names a consolidated element.
    pub asks: bool,
    /// Whether each cell that is read is of a smaller level than its cell.
    pub weak: bool,
    /// What the elements of a cell give in the dimensions that are neither the last one nor the one by which the node
    /// that is read is found.
    pub elsewhere: Given,
}

/// What elements in some dimensions of a cell may give of what a source asks.
#[derive(Clone, Copy, PartialEq, Eq)]
pub struct Given {
    /// A consolidated element.
    pub own: bool,
    /// One from which a consolidated element is named.
    pub its: bool,
    /// Both, of one dimension only in one element.
    pub both: bool,
}
