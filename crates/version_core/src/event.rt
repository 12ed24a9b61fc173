/// One step of one user, who is named by number, from 1. A cell is named by its number too.
#[derive(Clone, Copy, Debug, PartialEq, Eq)]
pub enum Event {
    /// The user pins the newest version, and gives up an older pin and its try.
    Pin(u32),
    /// The user's next command is tried on the pinned version.
    Try(u32),
    /// The user's try is committed, where no other commit came since the pin.
    Commit(u32),
    /// The user finds the cell's kept value of the pinned version.
    Read(u32, u64),
    /// The user keeps the cell's value of the pinned version.
    Keep(u32, u64),
    /// The user gives up the pin, and the try with it.
    Unpin(u32),
}
