//! The bound model: the rules of a model with every name bound to a number.
//!
//! Binding turns every form of element argument into one table, so that the checks and the evaluator know two forms
//! only. Formulas and references come from `rule_laws`, which says what they mean; here stand the areas, the
//! statements, the feeders and the declared orders of the cubes.
//!
//! - [`cell_of`] and [`weight`] know of names and of dimensions alone.
//! - [`target`] is the cell that a reference names from a cell, and [`has_components`] tells whether the cell's element
//!   has components; [`governing`] and [`governing_after`] are the statements that give a cell its value, one after the
//!   other, and [`part_of`] is the formula of one; [`is_input`] tells whether a number can be stored in a cell.
//! - [`target_from`] and [`governing_in`] take the cell by its elements, for callers that have them already;
//!   [`place_of`] tells these.
//! - [`Model::feeders_filed`] finds the feeders of a cube by what their target names from every cell.
//!
//! None of these takes memory.
#![tactic(auto)]

pub use area::Area;
pub use cells::{cell_of, weight};
pub use filed::{FiledFeeder, FixedLeaf};
pub use governed::{governing, governing_after, governing_in, part_of};
pub use input::is_input;
pub use model::{MAX_WEIGHT_PRODUCT, Model};
pub use order::{Order, Position};
pub use places::place_of;
pub use rule_laws::{Arg, ElementMap, Formula, Fun, Op, Reference, Rel, Truth};
pub use rules::{CubeRules, Feeder, Form, Statement};
pub use shared_area::SharedArea;
pub use targets::{has_components, target, target_from};

mod area;
mod cells;
mod filed;
mod governed;
mod input;
mod model;
mod order;
mod parts;
mod places;
mod rules;
mod shared_area;
mod targets;
mod words;
