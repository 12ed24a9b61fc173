use script_tree::Section;

/// Where an execution stands.
#[derive(Clone, Copy, Debug, PartialEq, Eq)]
pub struct ExecutionPlace {
    pub section: Section,
    /// The record, from 1, or 0 outside of Data.
    pub row: u32,
    /// The statement in its section, from 1, or 0 before the first execution.
    pub statement: u32,
}
