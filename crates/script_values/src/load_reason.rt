/// Why a load ends and keeps none of its writes, or why it passes over a record.
#[derive(Clone, Copy, Debug, PartialEq, Eq)]
pub enum LoadReason {
    /// The cube or an element is unknown, or the count of elements is wrong.
    UnknownName,
    /// The written cell is consolidated.
    NotALeaf,
    /// The written cell isn't open for input.
    RuleDerived,
    /// A text that is wanted as a number isn't one, or is too large.
    NotANumber,
    /// The written value is out of range.
    OverWrite,
    /// `ProcessError` was executed.
    ProcessError,
    /// So many statements were executed, and one more would begin.
    StepLimit,
    /// The store with the writes so far would hold so many cells.
    StoreLimit(u64),
    /// The fed cells of that store would be so many.
    FedLimit(u64),
    /// A variable was read that has no value.
    UnsetVariable,
    /// A number stands where a text is wanted.
    TypeMismatch,
    /// Two texts that are joined would be a text of more than 2^20 bytes, or a number is to be written that wide.
    TextLimit,
}
