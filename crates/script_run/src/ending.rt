use script_values::LoadReason;

/// How a statement, a block or a section ended.
#[derive(Clone, Copy, PartialEq, Eq)]
pub enum Ending {
    /// What stands behind it is next.
    Next,
    /// By `ItemSkip`: the next record is next.
    Skipped,
    /// By `ProcessBreak`: the Epilog is next.
    Broken,
    /// The load is over.
    Stopped(LoadReason),
}
