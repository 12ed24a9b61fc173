use cube_fixed::Value;
use lists::ListOf;

/// The lines of a view with their values, and which of them are shown.
#[derive(Drop)]
pub(crate) struct Grid {
    pub(crate) rows: Vec<ListOf<u32>>,
    pub(crate) columns: Vec<ListOf<u32>>,
    /// The values of each row.
    pub(crate) values: Vec<ListOf<Value>>,
    pub(crate) rows_shown: Vec<bool>,
    pub(crate) columns_shown: Vec<bool>,
}
