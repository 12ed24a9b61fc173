//! Binding of element arguments: those of a `DB`, which say for each cell of a statement's cube which element of the
//! target's dimension is meant.
//!
//! Read first [`bind_argument`], which turns one into an [`Arg`](rule_laws::Arg), and then [`BoundMaps`], by which
//! equal arguments share a table. `specs/Written.antt` says which formulas are element arguments, `specs/Bound.antt`
//! which of their names are unknown and which name one gives, `specs/Family.antt` the parents and the next leaf of an
//! element, `specs/Argument.antt` the table that comes of it.
//! [`ElementFunction`] is a function that gives each element a number, and `specs/Numbers.antt` says which.
//! [`elements_below`] marks what lies below an element.
#![tactic(auto)]

pub use argument::bind_argument;
pub use bound_maps::BoundMaps;
pub use element_function::ElementFunction;
pub use element_text::ElementText;
pub use fault::ArgumentFault;
pub use marks::elements_below;
pub use naming::attribute_named;

mod alike;
mod argument;
mod binding;
mod bound_argument;
mod bound_maps;
mod bound_tables;
mod element_function;
mod element_text;
mod families;
mod family;
mod fault;
mod giving;
mod marks;
mod naming;
mod numbers;
mod own_maps;
mod parents;
mod reading;
mod relative;
