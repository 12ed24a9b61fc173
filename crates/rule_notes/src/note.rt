/// What is accepted and hardly ever meant. Cubes are counted from 0; the statements of a cube, and the references of a
/// statement, from 1.
#[derive(Clone, Copy, Debug, PartialEq, Eq)]
pub enum Note {
    /// A part of a statement gives no cell its value: an earlier statement has a part for cells of the same kind
    /// without a `CONTINUE`, and its area has this one's.
    NotReached {
        cube: u32,
        statement: u32,
        /// Whether the part is for leaf cells.
        leaf: bool,
        /// The first such statement.
        by: u32,
    },
    /// A reference of a statement names no cell from any cell that it is for, though there are such cells: those of the
    /// statement's area, of the kind of its part. A `ConsolidateChildren` is counted and never noted.
    NamesNothing {
        cube: u32,
        statement: u32,
        /// In reading order. A formula that is both parts is counted once.
        reference: u32,
    },
}
