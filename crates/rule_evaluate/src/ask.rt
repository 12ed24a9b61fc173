/// A question about a cell.
#[derive(Clone, Copy, Debug, PartialEq, Eq)]
pub enum Ask {
    /// The value of this cell.
    Value(u64),
    /// What this cell would have if no statement governed it.
    Base(u64),
    /// The weighted sum over the components of this cell's element, in the dimension at this place of its cube.
    Children(u64, u32),
}
