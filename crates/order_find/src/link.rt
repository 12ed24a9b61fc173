/// A step of a closed walk: from the node of an element of its cube's last dimension to that of the next link.
#[derive(Clone, Copy, Debug, PartialEq, Eq)]
pub struct Link {
    /// The cube, counted from 0.
    pub cube: u32,
    /// The element of the cube's last dimension, counted from 0.
    pub element: u32,
    pub by: LinkBy,
}

/// What makes the arrow of a link.
#[derive(Clone, Copy, Debug, PartialEq, Eq)]
pub enum LinkBy {
    /// What a reference reads at the same lag.
    Reference {
        /// The statement of the cube, counted from 1.
        statement: u32,
        /// The reference of the statement, counted from 1 in reading order. A `ConsolidateChildren` counts as one.
        reference: u32,
    },
    /// A leaf that counts in the consolidated element of the link.
    Below,
}
