//! Cases of users on threads, over a world of one total. The lines of a case are its users'.
//!
//! In a user's line a number is added, where it is at most 100, and `?` asks for the total. `[` opens a sandbox, `]`
//! publishes it and `x` discards it. A case prints how it ended, which no order of the users changes, or all that was
//! told, where no order changes that.
//!
//! [`commits`] shows a commit that finds no memory: nothing is added to the history, and the same number is set at the
//! next try.
#![tactic(auto)]

mod adding;
mod cases;
mod refused_commit;
mod refusing;
mod restless;

use crate::adding::Adding;
use crate::cases::{ending, replies, users_of};
use crate::restless::Restless;
pub use refused_commit::commits;
use std::alloc::{AllocError, Global};
use std::sync::Wait;
use std::thread::Threads;

/// How the users of a case ended, who have a line each.
pub fn ending_of<R: Threads + Wait + Sync>(
    rt: &R,
    alloc: Global,
    users: &str,
) -> Result<String, AllocError> {
    let users = users_of(alloc, users)?;
    let served = sessions::serve::<Adding, _, _>(rt, alloc, &Restless, 0, users)?;
    ending(alloc, &served)
}

/// What the users of a case were told, and the history that they left.
pub fn replies_of<R: Threads + Wait + Sync>(
    rt: &R,
    alloc: Global,
    users: &str,
) -> Result<String, AllocError> {
    let users = users_of(alloc, users)?;
    let served = sessions::serve::<Adding, _, _>(rt, alloc, &Restless, 0, users)?;
    replies(alloc, &served)
}
