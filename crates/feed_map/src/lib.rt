//! The fed cells of a version: which leaf cells may have a value other than 0 though nothing is stored in them.
//!
//! [`Fed`] is the list of them, rising, and [`Feeding`] has with them the totals that feeders name, so that none is
//! opened twice. [`Feeding::of`] finds them anew, [`Feeding::over`] from those over nothing, and [`Feeding::grown`]
//! from those of a version in which fewer cells were stored. Each follows a cell by the feeders of its cube whose area
//! has it, and a fed cell once. Where no cell of an area is taken out, the fed cells stay:
//! [`feed_sources::is_any_source`]. Else [`Feeding::changed`] takes out what is at risk, and finds what of it is fed
//! still.
//!
//! The feeder check promises that a leaf cell that is neither stored nor fed is 0: see [`cells_off_the_map_are_zero`].
#![tactic(auto)]

pub use fault::FedFault;
pub use fed::{Fed, Feeding};
pub use growth::MAX_FED;
pub use laws::{cells_off_the_map_are_zero, fed_cells_are_leaf_cells};

mod dense;
mod fault;
mod fed;
mod follow;
mod given_up;
mod growth;
mod laws;
mod leaves;
mod reached;
mod risk;
