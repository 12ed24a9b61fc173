use cell_store::Store;
use rule_model::Model;
use std::snapshot::Snapshot;

/// A version of the numbers, as clauses see it: its number, its model, and what is stored. At run time it is the number
/// alone.
#[derive(Drop)]
pub struct Version {
    pub number: u64,
    pub model: Snapshot<Model>,
    pub stored: Snapshot<Store>,
}

/// What a memo is made for: a version, and into how many slots the cells fall.
#[derive(Drop)]
pub struct About {
    pub(crate) version: Version,
    pub(crate) slots: u64,
}
