use lists::ListOf;

/// The declared order of a cube's cells: cells are compared at the first position, then at the next.
#[derive(Drop)]
pub struct Order {
    /// The positions of leaf cells, and of consolidated cells too where those have none of their own.
    pub positions: ListOf<Position>,
    /// The positions of consolidated cells, where they aren't those of leaf cells.
    pub totals: Option<ListOf<Position>>,
}

/// What a cell has at a position of the order.
#[derive(Drop)]
pub enum Position {
    /// The same number for each cell of the cube.
    Constant(u32),
    /// The rank of the cell's element in this dimension, by element.
    Ranks { dim: u32, ranks: ListOf<u32> },
}
