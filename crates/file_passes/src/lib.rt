//! How a run reads its files in passes.
//!
//! Read `specs/Pass.antt` first: the words that passes are made of. The outcome of a pass is in
//! `specs/Halting.antt`, which files it reads in `specs/Reading.antt`, and what of a run its outside sees in
//! `specs/Course.antt` and `specs/Outside.antt`. [`obtain`] reads one file and [`obtain_all`] several, each once;
//! [`Readings`] keeps them.
#![tactic(auto)]

mod halt;
mod name;
mod obtaining;
mod reading;
mod readings;
mod refusal;

pub use halt::Halt;
pub use name::file_name;
pub use obtaining::{obtain, obtain_all};
pub use readings::{Readings, Source, source_of};
pub use refusal::{Cause, FilePlace, Refusal};
