//! A model that every check of deployment has accepted: its rules are ordered, feeders cover them, and its dense cubes
//! feed no more cells than there may be.
//!
//! [`Accepted`] keeps this of its model, with what is fed where nothing is stored. So whoever reads over one knows that
//! each cell has one value, and that a leaf cell which is neither stored nor fed is 0.
#![tactic(auto)]

pub use accepted_model::Accepted;

mod accepted_model;
