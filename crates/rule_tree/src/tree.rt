use cube_fixed::Money;
use dim_name::Name;
use lists::ListOf;
use sqlite_items::{Boxed, Items};

/// An element in a bracket, perhaps with its dimension.
#[derive(Debug, Drop)]
pub struct SimpleText {
    pub dim: Option<Name>,
    pub element: Name,
}

/// An operator between two formulas.
#[derive(Clone, Copy, Debug, Eq, PartialEq)]
pub enum TreeOp {
    /// `%`
    Or,
    /// `&`
    And,
    /// `=`
    Equal,
    /// `<>`
    Unequal,
    /// `<`
    Less,
    /// `>`
    Greater,
    /// `<=`
    AtMost,
    /// `>=`
    AtLeast,
    /// `@=`, of texts, as names are compared.
    Same,
    /// `@<>`, of texts.
    Other,
    /// `+`
    Add,
    /// `-`
    Sub,
    /// `*`
    Mul,
    /// `/`
    Div,
    /// `\`, a division that gives 0 where the divisor is 0.
    DivSafe,
}

/// A formula. Parentheses leave nothing in it. It is at most some thousand levels deep, since a whole formula has at
/// most 1,000 primaries.
#[derive(Debug, Drop)]
pub enum Tree {
    Number(Money),
    /// The bytes that stand between the quotes, each doubled quote being one.
    Text(ListOf<u8>),
    /// `!` and a dimension: the element of the cell at hand.
    Current(Name),
    /// A reference to another cell of the cube.
    Bracket(ListOf<SimpleText>),
    Stet,
    Continue,
    /// A function, whose word is kept in capitals, and its arguments.
    Call(ListOf<u8>, Items<Tree>),
    /// `-`
    Minus(Boxed<Tree>),
    /// `~`
    Not(Boxed<Tree>),
    Binary(TreeOp, Boxed<Tree>, Boxed<Tree>),
}
