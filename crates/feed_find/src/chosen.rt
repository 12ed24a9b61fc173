use rule_model::Feeder;

/// A feeder that is found.
#[derive(Drop)]
pub struct FoundFeeder {
    /// The cube that it stands in: that of its sources.
    pub cube: u32,
    /// As feeder statement 0: it gets its number with the model.
    pub feeder: Feeder,
}

/// What becomes of a chosen reference of a statement.
#[derive(Drop)]
pub enum Chosen {
    Found(FoundFeeder),
    /// It can't be turned round. This is its number among the references of the statement, from 1.
    Unturned(u32),
}
