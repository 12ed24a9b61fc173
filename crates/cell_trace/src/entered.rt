use crate::item::Item;
use lists::ListOf;

/// A statement that is entered, with what evaluation reaches in its formula.
#[derive(Drop)]
pub(crate) struct Entered {
    /// Its place among the statements of the cell's cube, from 0.
    pub place: u32,
    /// The number of the first reference of the formula.
    pub first: u64,
    pub visited: ListOf<Option<Item>>,
}
