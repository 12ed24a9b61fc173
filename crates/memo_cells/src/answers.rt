use cube_fixed::Value;

/// What a look for a cell's value finds.
#[derive(Clone, Copy, Debug, PartialEq, Eq)]
pub enum Look {
    /// The value of the cell on the version of the memo.
    Value(Value),
    /// Nothing was kept there yet when the slot was read.
    Empty,
    /// The cell's slot has the value of another cell, the one of this number, or waits for it.
    Other(u64),
}

/// What becomes of a value that is to be kept.
#[derive(Clone, Copy, Debug, PartialEq, Eq)]
pub enum Kept {
    /// The memo has it, put there by this call or before.
    Here,
    /// The cell's slot is for another cell, the one of this number.
    Other(u64),
}
