use cube_fixed::Value;

/// Where the value of a cell comes from. It is found out once while a cell is worked out.
#[derive(Drop)]
pub enum Origin {
    /// This is stored in a leaf cell that no statement governs.
    Stored(Value),
    /// A governed cell has this value without work: what the statement gives as a number alone, or 0 in a leaf cell
    /// that is neither stored nor fed.
    Plain(Value),
    /// This statement governs the cell.
    Statement(u32),
    /// It is the sum over the leaf cells below a consolidated cell that no statement governs.
    Leaves,
}
