use cube_fixed::Value;
use lists::ListOf;

/// What a cell is.
#[derive(Clone, Copy)]
pub enum Kind {
    /// A leaf cell that is open for input.
    Leaf,
    /// A consolidated cell.
    Total,
    /// A leaf cell that a rule governs.
    Ruled,
}

/// A cell of a case.
#[derive(Drop)]
pub struct Listed {
    /// The cube and the elements, with a comma between them.
    pub names: ListOf<u8>,
    pub kind: Kind,
    /// What it has before the load.
    pub value: Value,
}

/// A dimension of a case. Its elements and their attributes are named by the same bytes.
#[derive(Drop)]
pub struct ListedDimension {
    pub name: ListOf<u8>,
    pub elements: ListOf<ListedElement>,
}

/// An element of a case.
#[derive(Drop)]
pub struct ListedElement {
    pub name: ListOf<u8>,
    pub is_leaf: bool,
}

/// A text of an attribute.
#[derive(Drop)]
pub struct ListedAttribute {
    /// The dimension, the element and the attribute, with a comma between them.
    pub names: ListOf<u8>,
    pub text: ListOf<u8>,
}
