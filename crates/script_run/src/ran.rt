use crate::reject::Reject;
use lists::ListOf;
use script_tree::Section;
use script_values::LoadReason;

/// How a load ended.
#[derive(Drop)]
pub enum Ran {
    /// Its writes are to be kept. These records were passed over.
    Done(ListOf<Reject>),
    /// None of its writes is to be kept.
    Rejected {
        /// The section of the last execution.
        section: Section,
        /// The record, from 1 among those that were given, or 0 outside of Data.
        row: u32,
        /// The statement in its section, from 1 in the order of the text, with those that stand in others.
        statement: u32,
        /// The first reason.
        reason: LoadReason,
    },
}
