/// Why a model's feeders are refused.
#[derive(Clone, Copy, Debug, PartialEq, Eq)]
pub enum FeedCheckFault {
    /// The N part of a statement isn't 0 wherever its cell is neither stored nor fed.
    NotFed {
        /// The cube, counted from 0.
        cube: u32,
        /// The statement of the cube, counted from 1.
        statement: u32,
        /// The operand that the N part is blamed on, counted from 1 in reading order.
        operand: u32,
    },
    /// A cube that has rules without `SKIPCHECK` has more than 1,000,000 leaf cells: so many.
    DenseTooLarge {
        /// The cube, counted from 0.
        cube: u32,
        count: u64,
    },
}
