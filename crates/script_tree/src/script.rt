use crate::line::Line;
use sqlite_items::Items;

/// A section of a load script.
#[derive(Clone, Copy, Debug, PartialEq, Eq)]
pub enum Section {
    /// `PROLOG:`, which is run once, before the records.
    Prolog,
    /// `DATA:`, which is run once for each record.
    Body,
    /// `EPILOG:`, which is run once, after the records.
    Epilog,
}

/// Statements in the order of the text.
#[derive(Drop)]
pub struct Block {
    pub lines: Items<Line>,
}

/// A load script. A section that isn't there is an empty block.
#[derive(Drop)]
pub struct Script {
    pub prolog: Block,
    /// `DATA:`
    pub body: Block,
    pub epilog: Block,
}
