//! What the rule of the table knows of a pass. No value of these types is made.
use history::Entry;
use std::collections::LinkedList;

/// How far a pass has come under the turn.
pub enum Stage {
    /// It doesn't have the turn.
    Idle,
    /// It has the turn.
    Turn,
    /// It has the turn, and has looked under it.
    Looked,
    /// It has looked, and the ledger is out with it.
    Away,
}

/// A list that a pass saw earlier, with the numbers that it had then.
pub struct Older<T> {
    pub(crate) seen: LinkedList<Entry<T>>,
    pub(crate) numbers: LinkedList<u64>,
}

/// What a pass has seen and who it is.
pub struct PassView<C, T> {
    /// Its own number, under which it commits.
    pub(crate) number: u64,
    /// The numbers of the passes that were met into it.
    pub(crate) joined: LinkedList<u64>,
    /// What the book was begun with; none once the pass was met into another one.
    pub(crate) opening: Option<C>,
    pub(crate) seen: LinkedList<Entry<T>>,
    pub(crate) older: LinkedList<Older<T>>,
    /// How often it has looked at the history.
    pub(crate) looks: u64,
    pub(crate) stage: Stage,
    /// The number of the next pass that is split from it, where it gives numbers.
    pub(crate) next: Option<u64>,
}
