//! Names, by which dimensions, elements, attributes and cubes are called.
#![tactic(auto)]

mod name;
mod same_name;

pub use name::{Name, NameFault};
pub use same_name::is_same_name;
