use cube_fixed::Money;
use lists::ListOf;
use sqlite_items::{Boxed, Items};

/// A function of load scripts.
#[derive(Clone, Copy, PartialEq, Eq)]
pub enum ScriptFun {
    /// The value of a cell: its cube and elements, at least two arguments.
    CellGetN,
    Abs,
    Sign,
    /// The greatest whole number that isn't above the argument.
    Int,
    Round,
    StringToNumber,
    NumberToString,
    /// Of two arguments.
    Max,
    /// Of two arguments.
    Min,
    /// The text without the spaces and tabs at its ends.
    Trim,
    Upper,
    Lower,
    /// How many characters a text has.
    Long,
    /// Where a text stands in another one: what is looked for, and where.
    Scan,
    /// Characters of a text: the text, the place of the first one, and how many.
    Subst,
    /// A number as a text: the number, the least width, and how many decimals.
    Str,
    /// What is left by a division.
    Mod,
    /// A number, rounded to so many decimals.
    RoundP,
    /// The number without its decimals.
    Trunc,
    /// How many elements a dimension has.
    ElementCount,
    /// The name of an element: its dimension, and its place from 1.
    ElementName,
    /// The place of an element: its dimension, and its name.
    ElementPlace,
    /// Whether an element is a leaf: its dimension, and its name.
    ElementKind,
    /// A text of an attribute: the dimension, the element and the attribute.
    AttributeText,
    /// The number that this text says.
    AttributeNumber,
    /// Whether a cell is open for input: its cube and elements, at least two arguments.
    CellIsUpdateable,
    /// Whether an element lies below another one: the dimension, the one above and the element.
    IsAncestor,
}

/// An operator between two expressions.
#[derive(Clone, Copy, PartialEq, Eq)]
pub enum ScriptOp {
    /// `%`
    Or,
    /// `&`
    And,
    /// `=`
    Equal,
    /// `<>`
    Unequal,
    /// `<`
    Less,
    /// `>`
    Greater,
    /// `<=`
    AtMost,
    /// `>=`
    AtLeast,
    /// `@=`, of texts, as names are compared.
    SameText,
    /// `@<>`, of texts.
    OtherText,
    /// `+`
    Add,
    /// `-`
    Sub,
    /// `|`, which joins texts.
    Join,
    /// `*`
    Mul,
    /// `/`
    Div,
    /// `\`, a division that gives 0 where the divisor is 0.
    DivSafe,
}

/// An expression. Parentheses leave nothing in it. It is at most some thousand levels deep, since a whole expression
/// has at most 1,000 primaries.
#[derive(Drop)]
pub enum Expr {
    Number(Money),
    /// The bytes that stand between the quotes, each doubled quote being one.
    Text(ListOf<u8>),
    /// A variable or a column of the record, whose word is kept in capitals. It is a column where it is `V` and a
    /// number from 1 to 9,999 without a leading zero.
    Variable(ListOf<u8>),
    /// A function and its arguments, as many as it takes.
    Call(ScriptFun, Items<Expr>),
    /// `-`
    Minus(Boxed<Expr>),
    /// `~`
    Not(Boxed<Expr>),
    Binary(ScriptOp, Boxed<Expr>, Boxed<Expr>),
}
