//! What the bytes of a run's files are judged to be.
//!
//! Read `specs/Models.antt`, `specs/Rules.antt`, `specs/Scripts.antt` and `specs/Users.antt`, a file of each kind after
//! the other: what its bytes mean, or why they are refused. Which refusal a fault of a text is stands in
//! `specs/Refusals.antt`, and which commands are run in `specs/Loads.antt`, over what `specs/ModelFiles.antt` has of
//! the model.
#![tactic(auto)]

mod file_records;
mod loads;
mod model_files;
mod models;
mod refusing;
mod rules;
mod scripts;
mod users;

pub use loads::{commands_of, record_files};
pub use model_files::ModelFiles;
pub use models::text_of;
pub use rules::{all_rule_names, bound_of, model_of, rule_names};
pub use scripts::{script_files, script_names, scripts_of};
pub use users::users_of;
