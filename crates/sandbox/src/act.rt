/// What a user does, with a sandbox or without.
#[derive(Drop)]
pub enum Act<K> {
    /// Opens a sandbox.
    Open,
    /// Commits all writes that the sandbox keeps, as one entry, and ends the sandbox where they are accepted.
    Publish,
    /// Ends the sandbox, and all that it keeps is dropped.
    Discard,
    /// A command of the world. In a sandbox its writes are kept there.
    Do(K),
}

/// What is replied to an act that opens or ends a sandbox.
#[derive(Clone, Copy, Debug)]
pub enum Note {
    /// A sandbox was opened.
    Opened,
    /// None was opened, since one is open.
    AlreadyOpen,
    /// There is none to publish or discard.
    NoSandbox,
    /// The sandbox was ended, and its writes are dropped.
    Discarded,
}
