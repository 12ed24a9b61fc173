use crate::statement::Statement;
use lists::ListOf;
use sqlite_items::Items;

/// A load script whose variables are numbered from 0, by their places in a list of their words.
#[derive(Drop)]
pub struct BoundScript {
    /// The words of the variables, in capitals.
    pub variables: ListOf<ListOf<u8>>,
    pub prolog: Items<Statement>,
    /// `DATA:`
    pub body: Items<Statement>,
    pub epilog: Items<Statement>,
}
