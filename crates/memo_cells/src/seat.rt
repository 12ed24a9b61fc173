ghost use Rattle.std.specs.Prelude.{◌≡◌, []};

use crate::version::Version;
use atomic_table::Seat;
use std::collections::LinkedList;

/// What a seat knows. No value of it is made.
pub struct SeatView {
    /// What the values are of; none once the seat was joined away.
    pub(crate) version: Option<Version>,
    pub(crate) slots: u64,
    /// The words that were found not to be 0, each with its place.
    pub(crate) known: LinkedList<(u64, u64)>,
    /// The places of words that were found to be 0, as often as they were.
    pub(crate) zeros: LinkedList<u64>,
    /// The cells whose keys it has claimed.
    pub(crate) claimed: LinkedList<u64>,
}

/// One reader's place at a memo. It takes no bytes, and may go to another thread.
#[derive(Drop)]
pub struct MemoSeat {
    pub(crate) seat: Seat<(), SeatView>,
    ghost empty_handed: { seat.me.1 ≡ [] },
}
