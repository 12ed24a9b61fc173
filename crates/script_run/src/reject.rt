use script_values::LoadReason;

/// A record that a load passed over. It left nothing.
#[derive(Clone, Copy, Debug, PartialEq, Eq)]
pub struct Reject {
    /// The record, from 1 among those that were given.
    pub row: u32,
    /// The statement of Data at which it ended, from 1 in the order of the text, with those that stand in others.
    pub statement: u32,
    /// Why it was passed over.
    pub reason: LoadReason,
}
