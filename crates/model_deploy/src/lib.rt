//! From a model text and the files of its cubes' rules to an accepted model, or to the first refusal.
//!
//! Read in this order: [`deploy`], which makes the model; `specs/Deployment.antt`, the checks of a whole model in their
//! order. How a model is bound, and why it is refused, stands in crate `model_bind`.
#![tactic(auto)]

mod checks;
mod deploying;

pub use deploying::deploy;
