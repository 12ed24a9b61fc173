/// A reference of a statement, as refusals number it.
#[derive(Clone, Copy, Debug, PartialEq, Eq)]
pub struct ReferencePlace {
    /// The statement of its cube, counted from 1.
    pub statement: u32,
    /// The reference of the statement, counted from 1 in reading order. A `ConsolidateChildren` counts as one.
    pub reference: u32,
}
