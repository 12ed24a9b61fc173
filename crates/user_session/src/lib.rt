//! What a planner's commands do on a version of the numbers.
//!
//! Read in this order: [`PlanCommand`], what a user asks, and [`Reply`], what is answered; `specs/Planning.antt`, which
//! reply and which writes each command has on a content, and `specs/Replies.antt`, its text; [`PlanWorld`], the world
//! of these commands for who serves users; `specs/Layers.antt`, what a sandbox keeps of them. A command is added in
//! this crate alone: a case of [`PlanCommand`], of `effect` and of the reply's text.
#![tactic(auto)]

mod acts;
mod command;
mod content;
mod fixed_writes;
mod get_command;
mod laws;
mod load_command;
mod put_command;
mod reply;
mod sandboxes;
mod spread_command;
mod trace_command;
mod view_command;
mod world;
mod writes;

pub use acts::PlanActs;
pub use command::{PlanCommand, RuleFileNames};
pub use content::Content;
pub use laws::layers_are_writes_in_turn;
pub use reply::{CommandReason, Reply, ReplyText};
pub use sandboxes::KeptWrites;
pub use world::{CellWrites, PlanWorld};
