//! What a run does with its words and files: it reads them in passes, and judges what they hold.
//!
//! Read `specs/RefusalOrder.antt` first, the passes of a run in order, made of the words of crate `file_passes`; then
//! [`run_passes`], which goes through them. What files are judged to be stands in crate `judged_files`. Behind `passes`
//! there are `model_passes`, of the model with all that belongs to it, and `feeders_passes`, of the feeders that are
//! found. `laws` says why no text is read further than to the first byte that is one too many.
#![tactic(auto)]

mod feeders_passes;
mod laws;
mod model_passes;
mod passes;
mod ready;
mod run_job;

pub use laws::fronts_read_alike;
pub use passes::run_passes;
pub use ready::Ready;
pub use run_job::RunJob;
