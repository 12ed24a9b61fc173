//! Users who act on one history, each on a thread of its own: a session for each user, and the run of all of them.
//!
//! - [`Session`] is one user's commands, the pass of its book by which they act, and the replies to them.
//!   [`Session::step`] answers the next command and [`Session::run`] all that are left; others may commit meanwhile.
//! - [`serve`] opens a book over a state, runs a session for each user on threads, brings all passes together and ends
//!   the book. It promises the one history of all users, as [`history`] says what that is.
//!
//! `specs/Sessions.antt` says what holds of a session, and `specs/Answers.antt` what a step answers.
#![tactic(auto)]

mod answer;
mod closing;
mod opening;
mod own;
mod serving;
mod session;
mod threads;

pub use own::{Own, OwnOf};
pub use serving::{Served, ServedOf, serve};
pub use session::{Session, SessionOf};
pub use threads::MAX_THREADS;
