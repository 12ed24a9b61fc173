//! One history of commits that many users share, each on a thread of its own, with the state after it.
//!
//! - [`Book::begin`] opens a book over a state of any `World` and gives the first [`Pass`]; [`Book::split`] makes a
//!   pass for another user.
//! - [`Book::pin`] gives a state of the newest version, on which [`Pin::attempt`] tries commands while others commit.
//! - [`Book::commit`] puts an accepted command into the history. Where another commit came after the try, the command
//!   runs again, and that run decides.
//! - [`Book::meet`] makes one pass of two, and [`Book::close`] ends the book and gives the history and its state.
//!
//! Users wait for each other at the turn alone, which `pin`, `commit` and `meet` take. A pin holds it to share the
//! state, and a commit that no other overtook runs no command under it.
//!
//! Contracts speak of what a pass has seen and of its numbers, `specs/Passes.antt`, of how lists of entries go on,
//! `specs/Lists.antt`, and of the answer of a commit, `specs/Commits.antt`. `specs/Inside/` has the rule that each step
//! on the shared words keeps. The crate doesn't say that a user gets its turn.
#![tactic(auto)]

mod book;
mod commits;
mod ledger;
mod pass_view;
mod passes;
mod pins;
mod rule;
mod steps;

pub use book::{Book, BookOf, Closed, ClosedOf, Pass, PassOf, Pin, Settled, Tried, TriedOf};
pub use ledger::Ledger;
pub use pass_view::{Older, PassView, Stage};
pub use rule::Rule;
