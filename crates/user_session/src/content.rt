use cell_store::Store;
use rule_model::Model;

/// What commands act on: a model, and the numbers that are stored in its cells. A snapshot means it, and no value
/// of it is made.
pub struct Content {
    /// The model of the version.
    pub model: Model,
    /// What is stored: leaf cells with their numbers, in millionths, rising by cell.
    pub stored: Store,
}
