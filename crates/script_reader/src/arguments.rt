ghost use Rattle.std.specs.Prelude.{[], ◌∷◌, ◌≡◌, IfOk};
ghost use Rattle.grammar.specs.Cursor.{Reads};
ghost use Rattle.script_reader.specs.Readers.Reading as reading;

use grammar::{Cursor, Item, Stop, listed, sign};
use lists::ListOf;
use script_tree::{Counted, Excess, Expr, ScriptFun};
use std::alloc::{AllocError, Global};

/// One item.
fn alone(alloc: Global, first: Expr) -> Result<ListOf<Expr>, AllocError>
    ensures { IfOk result (λ given. given ≡ first ∷ []) }
{
    let mut given = Vec::new(alloc);
    given.push(first)?;
    Ok(ListOf::new(given))
}

/// An item before others.
fn before(alloc: Global, first: Expr, rest: ListOf<Expr>) -> Result<ListOf<Expr>, AllocError>
    ensures { IfOk result (λ given. given ≡ first ∷ rest) }
{
    let mut given = Vec::new(alloc);
    given.push(first)?;
    given.append(&mut rest.into_vec())?;
    Ok(ListOf::new(given))
}

/// Reads one value.
#[tactic(auto, unfolding(crate::specs::Readers::Reading::read_one_value))]
fn one_value<'a, I: Item<Expr, Excess, Counted<'a>>>(
    alloc: Global,
    cursor: &mut Cursor<'_, Counted<'a>>,
    item: &I,
) -> Result<ListOf<Expr>, Stop<Excess>>
    requires { I.may_read item.now }
    ensures { Reads (λ given. given) (reading.read_one_value (I.reads item.now)) cursor.old result cursor.new }
{
    let first = item.read(alloc, cursor)?;
    let given = alone(alloc, first)?;
    Ok(given)
}

/// Reads two values.
#[tactic(auto, unfolding(crate::specs::Readers::Reading::read_two_values))]
fn two_values<'a, I: Item<Expr, Excess, Counted<'a>>>(
    alloc: Global,
    cursor: &mut Cursor<'_, Counted<'a>>,
    item: &I,
) -> Result<ListOf<Expr>, Stop<Excess>>
    requires { I.may_read item.now }
    ensures { Reads (λ given. given) (reading.read_two_values (I.reads item.now)) cursor.old result cursor.new }
{
    let first = item.read(alloc, cursor)?;
    sign(cursor, b",")?;
    let second = item.read(alloc, cursor)?;
    let rest = alone(alloc, second)?;
    let given = before(alloc, first, rest)?;
    Ok(given)
}

/// Reads three values.
#[tactic(auto, unfolding(crate::specs::Readers::Reading::read_three_values))]
fn three_values<'a, I: Item<Expr, Excess, Counted<'a>>>(
    alloc: Global,
    cursor: &mut Cursor<'_, Counted<'a>>,
    item: &I,
) -> Result<ListOf<Expr>, Stop<Excess>>
    requires { I.may_read item.now }
    ensures { Reads (λ given. given) (reading.read_three_values (I.reads item.now)) cursor.old result cursor.new }
{
    let first = item.read(alloc, cursor)?;
    sign(cursor, b",")?;
    let rest = two_values(alloc, cursor, item)?;
    let given = before(alloc, first, rest)?;
    Ok(given)
}

/// Reads two values or more.
#[tactic(auto, unfolding(crate::specs::Readers::Reading::read_two_or_more))]
pub fn two_or_more<'a, I: Item<Expr, Excess, Counted<'a>>>(
    alloc: Global,
    cursor: &mut Cursor<'_, Counted<'a>>,
    item: &I,
) -> Result<ListOf<Expr>, Stop<Excess>>
    requires { I.may_read item.now }
    ensures { Reads (λ given. given) (reading.read_two_or_more (I.reads item.now)) cursor.old result cursor.new }
{
    let first = item.read(alloc, cursor)?;
    sign(cursor, b",")?;
    let rest = listed(alloc, cursor, item)?;
    let given = before(alloc, first, rest)?;
    Ok(given)
}

/// Reads three values or more.
#[tactic(auto, unfolding(crate::specs::Readers::Reading::read_three_or_more))]
pub fn three_or_more<'a, I: Item<Expr, Excess, Counted<'a>>>(
    alloc: Global,
    cursor: &mut Cursor<'_, Counted<'a>>,
    item: &I,
) -> Result<ListOf<Expr>, Stop<Excess>>
    requires { I.may_read item.now }
    ensures { Reads (λ given. given) (reading.read_three_or_more (I.reads item.now)) cursor.old result cursor.new }
{
    let first = item.read(alloc, cursor)?;
    sign(cursor, b",")?;
    let rest = two_or_more(alloc, cursor, item)?;
    let given = before(alloc, first, rest)?;
    Ok(given)
}

/// Reads as many values as a function takes.
#[tactic(auto, unfolding(crate::specs::Readers::Reading::read_arguments))]
pub fn arguments_of<'a, I: Item<Expr, Excess, Counted<'a>>>(
    alloc: Global,
    cursor: &mut Cursor<'_, Counted<'a>>,
    function: ScriptFun,
    item: &I,
) -> Result<ListOf<Expr>, Stop<Excess>>
    requires { I.may_read item.now }
    ensures { Reads (λ given. given) (reading.read_arguments function (I.reads item.now)) cursor.old result cursor.new }
{
    match function {
        ScriptFun::CellGetN | ScriptFun::CellIsUpdateable => two_or_more(alloc, cursor, item),
        ScriptFun::Subst
        | ScriptFun::Str
        | ScriptFun::AttributeText
        | ScriptFun::AttributeNumber
        | ScriptFun::IsAncestor => three_values(alloc, cursor, item),
        ScriptFun::Max
        | ScriptFun::Min
        | ScriptFun::Scan
        | ScriptFun::Mod
        | ScriptFun::RoundP
        | ScriptFun::ElementName
        | ScriptFun::ElementPlace
        | ScriptFun::ElementKind => two_values(alloc, cursor, item),
        ScriptFun::Abs
        | ScriptFun::Sign
        | ScriptFun::Int
        | ScriptFun::Round
        | ScriptFun::StringToNumber
        | ScriptFun::NumberToString
        | ScriptFun::Trim
        | ScriptFun::Upper
        | ScriptFun::Lower
        | ScriptFun::Long
        | ScriptFun::Trunc
        | ScriptFun::ElementCount => one_value(alloc, cursor, item),
    }
}
