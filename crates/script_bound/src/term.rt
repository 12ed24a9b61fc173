use cube_fixed::Money;
use lists::ListOf;
use rule_laws::{Fun, Op, Rel};
use sqlite_items::{Boxed, Items};

/// A function of one text, which gives a text.
#[derive(Clone, Copy, PartialEq, Eq)]
pub enum TextFun {
    /// Without the spaces and tabs at its ends.
    Trim,
    /// With `a` to `z` raised.
    Upper,
    /// With `A` to `Z` lowered.
    Lower,
}

/// An expression of a load script. A condition is one that gives a truth.
#[derive(Drop)]
pub enum Term {
    Number(Money),
    Text(ListOf<u8>),
    /// The variable of this number.
    Variable(usize),
    /// The column at this place of the record, from 0.
    Column(usize),
    /// `CellGetN`: the names of a cube and of its elements.
    Get(Items<Term>),
    /// A function of one number, or `-`.
    Amount(Fun, Boxed<Term>),
    /// An operation on two numbers.
    Amounts(Op, Boxed<Term>, Boxed<Term>),
    /// A comparison of two numbers.
    Compare(Rel, Boxed<Term>, Boxed<Term>),
    /// `StringToNumber`
    ToNumber(Boxed<Term>),
    /// `NumberToString`
    ToText(Boxed<Term>),
    /// A function of one text, which gives a text.
    Altered(TextFun, Boxed<Term>),
    /// `Long`: how many characters a text has.
    Long(Boxed<Term>),
    /// `Scan`: where the first text stands in the second one.
    Scan(Boxed<Term>, Boxed<Term>),
    /// `Subst`: characters of a text, from a place on, and how many.
    Subst(Boxed<Term>, Boxed<Term>, Boxed<Term>),
    /// `Str`: a number as a text, of at least this width and with so many decimals.
    Str(Boxed<Term>, Boxed<Term>, Boxed<Term>),
    /// `|`, which joins two texts.
    Join(Boxed<Term>, Boxed<Term>),
    /// `@=`, of two texts, as names are compared.
    Same(Boxed<Term>, Boxed<Term>),
    /// `@<>`, of two texts.
    Other(Boxed<Term>, Boxed<Term>),
    /// `&`, of two truths.
    And(Boxed<Term>, Boxed<Term>),
    /// `%`, of two truths.
    Or(Boxed<Term>, Boxed<Term>),
    /// `~`, of a truth.
    Not(Boxed<Term>),
    /// `DIMNM`: a dimension, and the place of an element.
    ElementName(Boxed<Term>, Boxed<Term>),
    /// What is asked of a dimension or of one of its elements, by their names.
    Element(ElementFun, Items<Term>),
    /// `CellIsUpdateable`: the names of a cube and of its elements.
    IsUpdateable(Items<Term>),
}

/// A function of a dimension, or of one of its elements.
#[derive(Clone, Copy, PartialEq, Eq)]
pub enum ElementFun {
    /// `DIMSIZ`: how many elements a dimension has.
    Count,
    /// `DIMIX`: the place of an element.
    Place,
    /// `DTYPE`: whether an element is a leaf.
    Kind,
    /// `ATTRS`: an element's text of an attribute.
    Text,
    /// `ATTRN`: the number that this text says.
    Number,
    /// `ELISANC`: whether the second element lies below the first one.
    IsAncestor,
}
