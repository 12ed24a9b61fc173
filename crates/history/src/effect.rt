/// What a command does on one version of the content: it commits writes, it is rejected, or it only reads.
/// Each has the reply to its user.
#[derive(Drop)]
pub enum Effect<T, R> {
    /// The command is accepted, and these are its writes.
    Commit(T, R),
    /// A writing command that is refused. It writes nothing.
    Rejected(R),
    /// A reading command. It writes nothing.
    Read(R),
}
