ghost use Rattle.std.specs.Prelude.{◌≡◌};
ghost use Rattle.rule_bind.specs.Functions.{own_function, value_function, function_of};

use rule_laws::{Fun, Op};

/// A function of the cell's own element in one dimension.
#[derive(Clone, Copy)]
pub(crate) enum OwnFunction {
    /// `DIMIX`
    Place,
    /// `ELLEV`
    Level,
    /// `ELISPAR`
    HasParent,
    /// `ELISANC`
    HasAncestor,
    /// `ELISCOMP`
    IsComponent,
    /// `ATTRN`
    Attribute,
    /// `ELCOMPN`
    ComponentCount,
    /// `ELPARN`
    ParentCount,
}

/// A function that is a value.
#[derive(Clone, Copy)]
pub(crate) enum Function {
    /// `IF`
    If,
    /// `DB`
    Db,
    /// `ConsolidateChildren`
    Children,
    /// `DIMSIZ`
    Size,
    /// A function of one value.
    One(Fun),
    /// A function of two values.
    Two(Op),
    /// A function of the cell's own element.
    Own(OwnFunction),
    /// None that is known.
    Other,
}

// A function of the cell's own element by its word.
fn own_function(word: &[u8]) -> Function
    ensures { result ≡ own_function word.now }
{
    if word == b"DIMIX".as_slice() {
        Function::Own(OwnFunction::Place)
    } else if word == b"ELLEV".as_slice() {
        Function::Own(OwnFunction::Level)
    } else if word == b"ELISPAR".as_slice() {
        Function::Own(OwnFunction::HasParent)
    } else if word == b"ELISANC".as_slice() {
        Function::Own(OwnFunction::HasAncestor)
    } else if word == b"ELISCOMP".as_slice() {
        Function::Own(OwnFunction::IsComponent)
    } else if word == b"ATTRN".as_slice() {
        Function::Own(OwnFunction::Attribute)
    } else if word == b"ELCOMPN".as_slice() {
        Function::Own(OwnFunction::ComponentCount)
    } else if word == b"ELPARN".as_slice() {
        Function::Own(OwnFunction::ParentCount)
    } else {
        Function::Other
    }
}

// A function of values by its word.
fn value_function(word: &[u8]) -> Function
    ensures { result ≡ value_function word.now }
{
    if word == b"ABS".as_slice() {
        Function::One(Fun::Abs)
    } else if word == b"SIGN".as_slice() {
        Function::One(Fun::Sign)
    } else if word == b"INT".as_slice() {
        Function::One(Fun::Int)
    } else if word == b"ROUND".as_slice() {
        Function::One(Fun::Round)
    } else if word == b"TRUNC".as_slice() {
        Function::One(Fun::Trunc)
    } else if word == b"MAX".as_slice() {
        Function::Two(Op::Max)
    } else if word == b"MIN".as_slice() {
        Function::Two(Op::Min)
    } else if word == b"MOD".as_slice() {
        Function::Two(Op::Mod)
    } else if word == b"ROUNDP".as_slice() {
        Function::Two(Op::RoundTo)
    } else {
        own_function(word)
    }
}

/// A function by its word in capitals.
pub(crate) fn function_of(word: &[u8]) -> Function
    ensures { result ≡ function_of word.now }
{
    if word == b"IF".as_slice() {
        Function::If
    } else if word == b"DB".as_slice() {
        Function::Db
    } else if word == b"CONSOLIDATECHILDREN".as_slice() {
        Function::Children
    } else if word == b"DIMSIZ".as_slice() {
        Function::Size
    } else {
        value_function(word)
    }
}
