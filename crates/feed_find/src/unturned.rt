/// A reference that is chosen, and can't be turned round.
#[derive(Clone, Copy, Debug, PartialEq, Eq)]
pub struct Unturned {
    /// The cube of the statement, counted from 0.
    pub cube: u32,
    /// The statement of the cube, counted from 1.
    pub statement: u32,
    /// The reference of the statement, counted from 1 in reading order. A `ConsolidateChildren` counts as one.
    pub reference: u32,
}
