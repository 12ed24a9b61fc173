//! The value of a cell by plain evaluation of every cell: slow, and what faster readers are compared with.
//!
//! [`dense`] fills a table with the values of all cells, each once, in the order in which none reads one that comes
//! later. It takes memory for the table and for the list of the cells in that order, and nothing else.
//!
//! [`parts_at`] and [`with_element_at`] lead from a cell to the components of its element, for every reader that sums
//! over them.
#![tactic(auto)]

pub use plain::parts_at;
pub use sums::with_element_at;
pub use table::{MAX_CUBE_CELLS, dense};

mod depth;
mod level;
mod order;
mod place;
mod plain;
mod refs;
mod sums;
mod table;
