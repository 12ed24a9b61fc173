/// What evaluation reaches in a formula.
#[derive(Clone, Copy, Debug, PartialEq, Eq)]
pub enum Item {
    /// A reference, with the cell that it names. Where it names none it is 0.
    Read(Option<u64>),
    /// `ConsolidateChildren` over the components of the cell's element, in the dimension at this place of the cube.
    Children(u32),
    /// What the cell would have if no statement governed it: `STET`, or `ConsolidateChildren` at a leaf.
    Own,
    /// What the statements after this one give: `CONTINUE`.
    Rest,
}
