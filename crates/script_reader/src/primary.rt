ghost use Rattle.std.specs.Prelude.{◌≡◌};
ghost use Rattle.grammar.specs.Cursor.{Reads};
ghost use Rattle.expression_grammar.specs.Readers.Reading.{tree_of};
ghost use Rattle.expression_grammar.specs.declared.sort.Want.TheVariants as wants;
ghost use Rattle.script_tree.specs.Expression as expression;
ghost use Rattle.script_reader.specs.Readers.Reading as reading;

use crate::arguments::arguments_of;
use crate::words::expression_word;
use expression_grammar::{Inner, Want};
use grammar::{Cursor, Item, Stop, money, number_comes, sign, sign_comes, text, text_comes};
use lists::ListOf;
use script_tree::{Counted, Excess, Expr, ScriptFun};
use sqlite_items::Items;
use std::alloc::Global;

/// A value inside another expression, as an item of a list.
#[derive(Clone, Copy)]
struct Argument<'a, I> {
    inner: &'a I,
}

impl<'a, 't, I: Inner<Expr, Excess, Counted<'t>>> Item<Expr, Excess, Counted<'t>>
    for Argument<'a, I> {
    ghost use Rattle.expression_grammar.specs.Readers.Reading.{tree_of};
    ghost use Rattle.expression_grammar.specs.declared.sort.Want.TheVariants as wants;

    ghost may_read = { λ argument. I.may_read argument.inner.now };

    ghost reads = { λ argument. tree_of (I.reads argument.inner.now wants.Value) };

    fn read(
        &self,
        alloc: Global,
        cursor: &mut Cursor<'_, Counted<'t>>,
    ) -> Result<Expr, Stop<Excess>> {
        let (tree, _) = self.inner.at(alloc, cursor, Want::Value)?;
        Ok(tree)
    }
}

/// Reads a number.
#[tactic(auto, unfolding(crate::specs::Readers::Reading::read_number))]
fn number_at(cursor: &mut Cursor<'_, Counted<'_>>) -> Result<Expr, Stop<Excess>>
    ensures { Reads (λ tree. tree) reading.read_number cursor.old result cursor.new }
{
    let value = money(cursor)?;
    Ok(Expr::Number(value))
}

/// Reads a quoted text.
#[tactic(auto, unfolding(crate::specs::Readers::Reading::read_quoted))]
fn quoted_at(alloc: Global, cursor: &mut Cursor<'_, Counted<'_>>) -> Result<Expr, Stop<Excess>>
    ensures { Reads (λ tree. tree) reading.read_quoted cursor.old result cursor.new }
{
    let bytes = text(alloc, cursor)?;
    Ok(Expr::Text(ListOf::new(bytes)))
}

/// The function of a word in capitals, if there is one.
fn function_of(word: &[u8]) -> Option<ScriptFun>
    ensures { result ≡ expression.function_in expression.functions word.now }
{
    if word == b"CELLGETN".as_slice() {
        Some(ScriptFun::CellGetN)
    } else if word == b"ABS".as_slice() {
        Some(ScriptFun::Abs)
    } else if word == b"SIGN".as_slice() {
        Some(ScriptFun::Sign)
    } else if word == b"INT".as_slice() {
        Some(ScriptFun::Int)
    } else if word == b"ROUND".as_slice() {
        Some(ScriptFun::Round)
    } else if word == b"STRINGTONUMBER".as_slice() {
        Some(ScriptFun::StringToNumber)
    } else if word == b"NUMBERTOSTRING".as_slice() {
        Some(ScriptFun::NumberToString)
    } else if word == b"MAX".as_slice() {
        Some(ScriptFun::Max)
    } else if word == b"MIN".as_slice() {
        Some(ScriptFun::Min)
    } else {
        None
    }
}

/// The function of a word in capitals that asks for elements or cells, if there is one.
fn function_of_elements(word: &[u8]) -> Option<ScriptFun>
    ensures { result ≡ expression.function_in expression.functions_of_elements word.now }
{
    if word == b"DIMSIZ".as_slice() {
        Some(ScriptFun::ElementCount)
    } else if word == b"DIMNM".as_slice() {
        Some(ScriptFun::ElementName)
    } else if word == b"DIMIX".as_slice() {
        Some(ScriptFun::ElementPlace)
    } else if word == b"DTYPE".as_slice() {
        Some(ScriptFun::ElementKind)
    } else if word == b"ATTRS".as_slice() {
        Some(ScriptFun::AttributeText)
    } else if word == b"ATTRN".as_slice() {
        Some(ScriptFun::AttributeNumber)
    } else if word == b"CELLISUPDATEABLE".as_slice() {
        Some(ScriptFun::CellIsUpdateable)
    } else if word == b"ELISANC".as_slice() {
        Some(ScriptFun::IsAncestor)
    } else {
        None
    }
}

/// The function of a word in capitals before a `(`, if there is one whose word may name a variable elsewhere.
fn function_before_parenthesis(word: &[u8]) -> Option<ScriptFun>
    ensures { result ≡ expression.function_in expression.functions_before_parenthesis word.now }
{
    if word == b"TRIM".as_slice() {
        Some(ScriptFun::Trim)
    } else if word == b"UPPER".as_slice() {
        Some(ScriptFun::Upper)
    } else if word == b"LOWER".as_slice() {
        Some(ScriptFun::Lower)
    } else if word == b"LONG".as_slice() {
        Some(ScriptFun::Long)
    } else if word == b"SCAN".as_slice() {
        Some(ScriptFun::Scan)
    } else if word == b"SUBST".as_slice() {
        Some(ScriptFun::Subst)
    } else if word == b"STR".as_slice() {
        Some(ScriptFun::Str)
    } else if word == b"NUMBR".as_slice() {
        Some(ScriptFun::StringToNumber)
    } else if word == b"MOD".as_slice() {
        Some(ScriptFun::Mod)
    } else if word == b"ROUNDP".as_slice() {
        Some(ScriptFun::RoundP)
    } else if word == b"TRUNC".as_slice() {
        Some(ScriptFun::Trunc)
    } else {
        function_of_elements(word)
    }
}

/// Reads the arguments of a function, in their parentheses.
#[tactic(auto, unfolding(crate::specs::Readers::Reading::read_call))]
fn call_at<'a, I: Inner<Expr, Excess, Counted<'a>>>(
    alloc: Global,
    cursor: &mut Cursor<'_, Counted<'a>>,
    function: ScriptFun,
    inner: &I,
) -> Result<Expr, Stop<Excess>>
    requires { I.may_read inner.now }
    ensures { Reads (λ tree. tree) (reading.read_call (tree_of (I.reads inner.now wants.Value)) function) cursor.old
        result cursor.new }
{
    sign(cursor, b"(")?;
    let given = arguments_of(alloc, cursor, function, &Argument { inner })?;
    sign(cursor, b")")?;
    Ok(Expr::Call(function, Items::from_vec(given.into_vec())))
}

/// Reads what stands behind a word that isn't reserved: a function's arguments where it is that of a function and a `(`
/// comes, and else nothing.
#[tactic(auto, unfolding(crate::specs::Readers::Reading::read_behind_variable))]
fn behind_variable<'a, I: Inner<Expr, Excess, Counted<'a>>>(
    alloc: Global,
    cursor: &mut Cursor<'_, Counted<'a>>,
    word: ListOf<u8>,
    inner: &I,
) -> Result<Expr, Stop<Excess>>
    requires { I.may_read inner.now }
    ensures { Reads (λ tree. tree) (reading.read_behind_variable (tree_of (I.reads inner.now wants.Value)) word
        (expression.function_in expression.functions_before_parenthesis word)) cursor.old result cursor.new }
{
    match function_before_parenthesis(word.as_slice()) {
        Some(function) if sign_comes(cursor, b"(") => call_at(alloc, cursor, function, inner),
        _ => Ok(Expr::Variable(word)),
    }
}

/// Reads what stands behind a word: a reserved function's arguments, or what stands behind any other word.
#[tactic(auto, unfolding(crate::specs::Readers::Reading::read_behind_word))]
fn behind_word<'a, I: Inner<Expr, Excess, Counted<'a>>>(
    alloc: Global,
    cursor: &mut Cursor<'_, Counted<'a>>,
    word: ListOf<u8>,
    inner: &I,
) -> Result<Expr, Stop<Excess>>
    requires { I.may_read inner.now }
    ensures { Reads (λ tree. tree) (reading.read_behind_word (tree_of (I.reads inner.now wants.Value)) word
        (expression.function_in expression.functions word)) cursor.old result cursor.new }
{
    match function_of(word.as_slice()) {
        Some(function) => call_at(alloc, cursor, function, inner),
        None => behind_variable(alloc, cursor, word, inner),
    }
}

/// Reads a primary that begins with a word.
#[tactic(auto, unfolding(crate::specs::Readers::Reading::read_worded))]
fn worded_at<'a, I: Inner<Expr, Excess, Counted<'a>>>(
    alloc: Global,
    cursor: &mut Cursor<'_, Counted<'a>>,
    inner: &I,
) -> Result<Expr, Stop<Excess>>
    requires { I.may_read inner.now }
    ensures { Reads (λ tree. tree) (reading.read_worded (tree_of (I.reads inner.now wants.Value))) cursor.old result
        cursor.new }
{
    let word = expression_word(alloc, cursor)?;
    behind_word(alloc, cursor, word, inner)
}

/// Reads a primary but for one in parentheses.
#[tactic(auto, unfolding(crate::specs::Readers::Reading::read_primary))]
pub fn primary_at<'a, I: Inner<Expr, Excess, Counted<'a>>>(
    alloc: Global,
    cursor: &mut Cursor<'_, Counted<'a>>,
    inner: &I,
) -> Result<Expr, Stop<Excess>>
    requires { I.may_read inner.now }
    ensures { Reads (λ tree. tree) (reading.read_primary (tree_of (I.reads inner.now wants.Value))
        (tree_of (I.reads inner.now wants.Truth))) cursor.old result cursor.new }
{
    if number_comes(cursor) {
        number_at(cursor)
    } else if text_comes(cursor) {
        quoted_at(alloc, cursor)
    } else {
        worded_at(alloc, cursor, inner)
    }
}
