//! [`Joined`]: lists that stand one after another in one vector.
#![tactic(auto)]

mod joined;
mod parts;

pub use joined::Joined;
pub use parts::bounds;
