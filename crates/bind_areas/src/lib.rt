//! Binding of areas and brackets: which cells of a cube the entries of a rule text speak of.
//!
//! Read in this order: [`BindCause`], why a part of a text means nothing; [`bind_area`], the cells of a statement or
//! the sources of a feeder; [`bind_bracket`], a reference to a cell of the same cube; [`place_of`], the dimension that
//! an entry belongs to. `specs/Areas.antt` says what they mean.
#![tactic(auto)]

pub use area::bind_area;
pub use bracket::bind_bracket;
pub use cause::BindCause;
pub use entry::place_of;

mod area;
mod bracket;
mod cause;
mod entry;
