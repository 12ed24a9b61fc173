/// A node: an element of the last dimension of a cube, and a kind of cell.
#[derive(Clone, Copy)]
pub struct Place {
    pub cube: u32,
    pub element: u32,
    /// Whether it is of leaf cells; of all cells where those of the cube have no kinds.
    pub kind: bool,
}

/// The numbers of the nodes: those of a cube's elements and one kind come one after another.
#[derive(Drop)]
pub struct Numbering {
    /// Of each cube the number of its first node of leaf cells.
    pub firsts: Vec<u32>,
    /// And of its first node of consolidated cells.
    pub totals: Vec<u32>,
    /// The node of each number.
    pub places: Vec<Place>,
}
