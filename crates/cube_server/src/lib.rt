//! The server: one call reads a model and its users' commands, runs the users, and writes each reply and the
//! one history; or it checks a model, explains a refusal, or runs a generated sample.
//!
//! Read [`run_cubes`] first, and beside it `specs/Answer.antt`, which text each end of a run allows, and
//! `specs/Output.antt`, the bytes. What is read, in which order, and how it is judged, stands in crate `run_passes`.
//! Behind the call `users` runs the users on threads, `print` makes the texts, `refusal_text` that of a refusal,
//! `answer` puts these together, and `tell` writes. What commands do stands in crate `user_session`.
#![tactic(auto)]

mod answer;
mod laws;
mod print;
mod refusal_text;
mod run;
mod sample;
mod server;
mod status;
mod tell;
mod users;

pub use laws::{one_user_has_one_output, served_values_are_the_only_solution};
pub use server::run_cubes;
pub use status::Status;
