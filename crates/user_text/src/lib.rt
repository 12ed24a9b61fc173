//! A user's commands, read from their text: `PUT`, `GET`, `LOAD`, `VIEW`, `SPREAD`, `TRACE`, and `SANDBOX`, `PUBLISH`
//! and `DISCARD`.
//!
//! Read in this order: [`parse`], which reads a whole text; [`UserCommand`], what it gives; [`UserFault`], why it
//! refuses. [`LoadParams`] are the parameters of a load. [`rows`] reads the [`Records`] of a load's
//! file (`specs/Rows.antt`), each a [`Record`]. [`LoadJob`] is a load that is to run, and its [`Rows`] are the records
//! over which it runs.
#![tactic(auto)]

mod cell;
mod command;
mod counted;
mod fault;
mod file_signs;
mod job_rows;
mod load;
mod load_job;
mod load_params;
mod params;
mod record;
mod records;
mod sandbox;
mod spread;
mod text;
mod view;

pub use command::{
    CellText, LoadText, ParamText, SetText, SpreadWord, UserBody, UserCommand, ViewText,
};
pub use counted::MAX_COMMANDS;
pub use fault::UserFault;
pub use job_rows::Rows;
pub use load_job::LoadJob;
pub use load_params::LoadParams;
pub use record::Record;
pub use records::{Records, rows};
pub use text::parse;
