//! Binding of order lines: the declared order of a cube that an `ORDER` line of a model text means.
//!
//! Read in this order: [`bind_order`]; [`BindOrderFault`], why a line means no order; [`auto_lag`] and [`lag_order`],
//! what a line for an order that is found means. `specs/Orders.antt` says what a line means, `specs/ByKind.antt` what
//! one means that tells leaf cells and consolidated cells apart, and `specs/Lags.antt` what `AUTO` means.
#![tactic(auto)]

pub use bind::bind_order;
pub use fault::BindOrderFault;
pub use lag::{Lag, auto_lag, lag_order};

mod axes;
mod bind;
mod by_kind;
mod fault;
mod lag;
mod leaf_cells;
mod listed;
mod made;
mod ranks;
mod word;
