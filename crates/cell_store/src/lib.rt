//! The stored cells of a version: which leaf cells hold a number other than 0, and which number.
//!
//! - [`Store`] is the list of its entries by cell. It is never changed in place: [`Store::apply`] gives the store after
//!   some writes, and the old one stays as it is.
//! - [`Entry`] is a stored cell with its number.
//! - [`CellSet`] is what a walk over cells needs of a set of them. A store is one, and a [`PageSet`] another.
//! - Both keep what they hold in pages under levels of nodes, which versions share: a new version makes only the pages
//!   that its writes change, and at each level the list of nodes that leads to them.
//!
//! Contracts see a store as its list of entries, in rising order of cells and without zeros, and a set as the list of
//! its cells. They cite the definitions at the top of `specs/`; how both stand in pages is said in `specs/Inside/`.
#![tactic(auto)]

pub use cells::CellSet;
pub use entry::Entry;
pub use fault::StoreFault;
pub use set::PageSet;
pub use store::{MAX_CELLS, Store};

mod cells;
mod entry;
mod fault;
mod level;
mod member;
mod node;
mod order;
mod page;
mod part;
mod places;
mod set;
mod store;
mod tree;
mod writes;
