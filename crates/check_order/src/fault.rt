/// Why a model's declared order is refused.
#[derive(Clone, Copy, Debug, PartialEq, Eq)]
pub enum OrderFault {
    /// The height, which is the product of the sizes of the positions, is greater than 65,536: the product of the sizes
    /// up to the first position with which it is. The size of a position is one more than the greatest number that a
    /// cell has there.
    TooHigh(u64),
    /// What a statement reads doesn't stand before each of its cells.
    NotEarlier {
        /// The cube, counted from 0.
        cube: u32,
        /// The statement of the cube, counted from 1.
        statement: u32,
        /// The reference of the statement, counted from 1 in reading order. A `ConsolidateChildren` counts as one.
        reference: u32,
    },
}
