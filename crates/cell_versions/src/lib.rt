//! The versions of the numbers: each has its number, the stored cells, and the cells that these feed.
//!
//! [`Version::first`] has nothing stored; [`Version::next`] is the version after some writes. Versions share what is
//! the same in them.
#![tactic(auto)]

pub use fault::NextFault;
pub use version::Version;

mod changes;
mod fault;
mod version;
