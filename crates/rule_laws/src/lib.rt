//! What rules mean, and the laws that hold of every set of rules that passes the checks.
//!
//! Read in this order:
//! - [`Formula`] and [`Reference`] are the parts of a bound rule; `specs/Meaning.antt` says what a formula gives.
//! - `specs/RuleSystem.antt` has the equations. The statements of a cell's cube give it a value, the first that has a
//!   part for it before the others: `STET` is what the cell would have if no statement governed it, `CONTINUE` what the
//!   statements after this one give. Beside them stand the dense values, those of plain rounds of evaluation.
//! - `specs/Ordered.antt` says when rules are ordered, `specs/OrderByPlace.antt` what the order check promises,
//!   `specs/Feeding.antt` which cells are fed, `specs/Cover.antt` when feeders cover the rules, by the test of
//!   `specs/ZeroTest.antt`, which also has the operand that a failing formula is blamed on.
//! - The laws are the contracts of [`dense_values_solve`], [`only_dense_values_solve`] and [`unfed_cells_are_zero`];
//!   [`statements_give_in_turn`] says which statement governs, [`order_by_place_is_an_order`] joins the two orders, and
//!   [`findings_rest_on_references`] says what the zero test looks at. A system that meets the premises stands in
//!   `rule_witness`.
//!
//! Nothing here takes memory, and nothing knows of dimensions: cells are numbers.
#![tactic(auto)]

pub use element_map::ElementMap;
pub use element_table::ElementTable;
pub use finding::{Finding, TruthFinding};
pub use formula::{Formula, Truth};
pub use laws::{
    dense_values_solve, findings_rest_on_references, only_dense_values_solve,
    order_by_place_is_an_order, statements_give_in_turn, unfed_cells_are_zero,
};
pub use operation::{Fun, Op, Rel};
pub use reference::{Arg, Reference};

mod element_map;
mod element_table;
mod finding;
mod formula;
mod laws;
mod operation;
mod reference;
