//! What the expressions of a load script give, over the cells that a load reads and writes.
//!
//! Read in this order: [`WorkCells`], the cells; [`LoadReason`], why a load ends; [`Datum`], what an expression gives;
//! [`value_of`], which evaluates one; [`amount_of`] and [`truth_of`], which evaluate one where a number or a truth is
//! wanted. `specs/Values.antt` says what each expression gives.
#![tactic(auto)]

mod cells;
mod characters;
mod datum;
mod elements;
mod kept;
mod load_reason;
mod operands;
mod padding;
mod sight;
mod text;
mod text_functions;
mod value;
mod wanted;

pub use cells::WorkCells;
pub use datum::Datum;
pub use kept::Kept;
pub use load_reason::LoadReason;
pub use sight::Sight;
pub use text::Text;
pub use value::{amount_of, cell_value, texts_of, truth_of, value_of};
pub use wanted::{as_amount, as_text, as_truth};
