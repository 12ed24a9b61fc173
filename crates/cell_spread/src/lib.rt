//! A number that is entered in a consolidated cell, spread over the leaf cells below it.
//!
//! - [`spread`] gives the writes, or why there are none.
//! - [`How`] says whether each cell gets the same or in proportion to what is stored in it.
//! - The laws say that the writes are just the amount, each within a millionth of its share, and nothing else.
//!
//! `specs/Spread.antt` says which writes these are, and `specs/Shares.antt` how an amount is shared out.
#![tactic(auto)]

pub use fault::SpreadFault;
pub use laws::{
    other_cells_keep_theirs, shares_are_near, shares_are_the_amount, the_cell_has_the_amount,
};
pub use writes::{How, MAX_SPREAD, spread};

mod below;
mod count;
mod fault;
mod laws;
mod ruled;
mod shares;
mod writes;
