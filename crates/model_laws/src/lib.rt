//! The laws of rules hold of bound models: the system of a model is well formed, and its ranks are those of the
//! declared order, so what `rule_laws` shows of such systems holds of every model that the order check accepts.
//!
//! The laws do nothing when they run.
#![tactic(auto)]

pub use laws::{
    models_are_ranked, models_are_well_formed, ordered_models_have_one_solution,
    statements_of_the_cube_decide, statements_of_the_cube_give_in_turn,
};

mod laws;
