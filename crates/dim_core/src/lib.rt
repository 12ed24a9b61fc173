//! Names and dimensions, as a planner writes them.
//!
//! Read in this order: [`Name`], the texts by which dimensions, elements, attributes and cubes are called; [`Builder`],
//! which takes the definitions of a dimension one by one and refuses a bad one; [`Dimension`], the finished list of
//! elements with its look-ups, and the [`Attribute`]s of its elements; [`DimFault`], why a definition was refused.
#![tactic(auto)]

mod attribute;
mod attribute_draft;
mod attributes;
mod builder;
mod components;
mod dimension;
mod fault;
mod kept_names;
mod laws;
mod resolve;

pub use attribute::Attribute;
pub use builder::{Builder, MAX_COMPONENTS, MAX_ELEMENTS, MAX_WEIGHT};
pub use dim_name::{Name, NameFault};
pub use dimension::Dimension;
pub use fault::DimFault;
pub use laws::{
    components_have_smaller_levels, laws_of_own_definitions, levels_solve, only_levels_solve,
};
