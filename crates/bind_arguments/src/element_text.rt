use dim_name::Name;
use lists::ListOf;

/// A text that each element of a dimension has.
#[derive(Drop)]
pub enum ElementText {
    /// The same bytes for every element.
    Fixed(ListOf<u8>),
    /// Its name.
    Name,
    /// `DTYPE`: `N` for a leaf, `C` for a consolidation.
    Kind,
    /// `ATTRS`: its text of this attribute; empty where it has none.
    Attribute(Name),
}
