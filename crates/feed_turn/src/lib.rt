//! Feeders that are found: the one feeder that covers a reference, made by turning the reference round.
//!
//! `specs/Turning.antt` says which feeder that is: its sources are what the reference names from the statement's area,
//! and its target leads back from there, dimension by dimension. [`turned_feeder`] makes it, and
//! [`turned_feeders_cover`] is the law that it covers the reference as the feeder check decides it.
#![tactic(auto)]

pub use laws::turned_feeders_cover;
pub use turn_view::TurnView;
pub use turned::turned_feeder;
pub use turns::Turns;

mod area;
mod axes;
mod back;
mod inverse;
mod laws;
mod leaves;
mod named;
mod over;
mod shift;
mod source;
mod turn_view;
mod turned;
mod turns;
