/// An arrow from a node of a graph.
#[derive(Clone, Copy, Debug)]
pub struct Arrow {
    /// The node to which it leads.
    pub to: u32,
    /// Whether that node must have a smaller rank than the first. Otherwise it may have the same.
    pub strict: bool,
}

/// A step of a walk: from this node by the arrow of this slot.
#[derive(Clone, Copy, Debug)]
pub struct Step {
    pub node: u32,
    pub slot: u32,
}
