use crate::chosen::Chosen;
use lists::ListOf;
use rule_laws::{Finding, TruthFinding};

/// What is needed for a formula to be 0.
#[derive(Drop)]
pub struct Need {
    /// What the zero test finds by the feeders of the model.
    pub by_written: Finding,
    /// What it finds where the own feeders of all references are there, too.
    pub by_all: Finding,
    /// How many references of the statement are counted up to its end.
    pub behind: u32,
    /// The references that are chosen to make it 0, in reading order.
    pub chosen: ListOf<Chosen>,
}

/// What is needed for a condition to be sure.
#[derive(Drop)]
pub struct TruthNeed {
    /// What the zero test finds by the feeders of the model.
    pub by_written: TruthFinding,
    /// What it finds where the own feeders of all references are there, too.
    pub by_all: TruthFinding,
    /// How many references of the statement are counted up to its end.
    pub behind: u32,
    /// The references that are chosen to make it sure, in reading order.
    pub chosen: ListOf<Chosen>,
}
