ghost use Rattle.std.specs.Prelude.{◌≡◌};
ghost use Rattle.grammar.specs.Cursor.{Reads};
ghost use Rattle.expression_grammar.specs.Readers.Reading.{tree_of};
ghost use Rattle.expression_grammar.specs.declared.sort.Want.TheVariants as wants;
ghost use Rattle.rule_tree.specs.Formula as formula;
ghost use Rattle.rule_reader.specs.Readers.Reading as reading;

use crate::basic::{current_at, number_at, quoted_at, reference_at};
use expression_grammar::{Inner, Want};
use grammar::{
    Cursor, Item, Stop, capital_word, further, number_comes, sign, sign_comes, text_comes,
};
use lists::ListOf;
use rule_tree::{Counted, Excess, Tree};
use sqlite_items::Items;
use std::alloc::Global;

/// A value inside another formula, as an item of a list.
#[derive(Clone, Copy)]
struct Argument<'a, I> {
    inner: &'a I,
}

impl<'a, I: Inner<Tree, Excess, Counted>> Item<Tree, Excess, Counted> for Argument<'a, I> {
    ghost use Rattle.expression_grammar.specs.Readers.Reading.{tree_of};
    ghost use Rattle.expression_grammar.specs.declared.sort.Want.TheVariants as wants;

    ghost may_read = { λ argument. I.may_read argument.inner.now };

    ghost reads = { λ argument. tree_of (I.reads argument.inner.now wants.Value) };

    fn read(&self, alloc: Global, cursor: &mut Cursor<'_, Counted>) -> Result<Tree, Stop<Excess>> {
        value_at(alloc, cursor, self.inner)
    }
}

/// Reads a value inside another formula.
fn value_at<I: Inner<Tree, Excess, Counted>>(
    alloc: Global,
    cursor: &mut Cursor<'_, Counted>,
    inner: &I,
) -> Result<Tree, Stop<Excess>>
    requires { I.may_read inner.now }
    ensures { Reads (λ tree. tree) (tree_of (I.reads inner.now wants.Value)) cursor.old result cursor.new }
{
    let (tree, _) = inner.at(alloc, cursor, Want::Value)?;
    Ok(tree)
}

/// Reads a truth inside another formula.
fn truth_at<I: Inner<Tree, Excess, Counted>>(
    alloc: Global,
    cursor: &mut Cursor<'_, Counted>,
    inner: &I,
) -> Result<Tree, Stop<Excess>>
    requires { I.may_read inner.now }
    ensures { Reads (λ tree. tree) (tree_of (I.reads inner.now wants.Truth)) cursor.old result cursor.new }
{
    let (tree, _) = inner.at(alloc, cursor, Want::Truth)?;
    Ok(tree)
}

/// Whether the first argument of a function is a truth.
fn is_if(function: &[u8]) -> bool
    ensures { result ≡ formula.is_if function.now }
{
    function == b"IF".as_slice()
}

/// Reads the first argument of a function.
#[tactic(auto, unfolding(crate::specs::Readers::Reading::read_first_argument))]
fn first_argument<I: Inner<Tree, Excess, Counted>>(
    alloc: Global,
    cursor: &mut Cursor<'_, Counted>,
    function: &ListOf<u8>,
    inner: &I,
) -> Result<Tree, Stop<Excess>>
    requires { I.may_read inner.now }
    ensures { Reads (λ tree. tree) (reading.read_first_argument (tree_of (I.reads inner.now wants.Value))
        (tree_of (I.reads inner.now wants.Truth)) function.now) cursor.old result cursor.new }
{
    if is_if(function.as_slice()) {
        truth_at(alloc, cursor, inner)
    } else {
        value_at(alloc, cursor, inner)
    }
}

/// Reads the arguments of a function up to a `)`.
#[tactic(auto, unfolding(crate::specs::Readers::Reading::read_arguments))]
fn arguments_at<I: Inner<Tree, Excess, Counted>>(
    alloc: Global,
    cursor: &mut Cursor<'_, Counted>,
    function: &ListOf<u8>,
    inner: &I,
) -> Result<ListOf<Tree>, Stop<Excess>>
    requires { I.may_read inner.now }
    ensures { Reads (λ arguments. arguments) (reading.read_arguments (tree_of (I.reads inner.now wants.Value))
        (tree_of (I.reads inner.now wants.Truth)) function.now) cursor.old result cursor.new }
{
    if sign_comes(cursor, b")") {
        Ok(ListOf::new(Vec::new(alloc)))
    } else {
        let first = first_argument(alloc, cursor, function, inner)?;
        further(alloc, cursor, &Argument { inner }, first)
    }
}

/// Reads what stands behind a function's word.
#[tactic(auto, unfolding(crate::specs::Readers::Reading::read_call))]
fn call_at<I: Inner<Tree, Excess, Counted>>(
    alloc: Global,
    cursor: &mut Cursor<'_, Counted>,
    function: ListOf<u8>,
    inner: &I,
) -> Result<Tree, Stop<Excess>>
    requires { I.may_read inner.now }
    ensures { Reads (λ tree. tree) (reading.read_call (tree_of (I.reads inner.now wants.Value))
        (tree_of (I.reads inner.now wants.Truth)) function) cursor.old result cursor.new }
{
    sign(cursor, b"(")?;
    let arguments = arguments_at(alloc, cursor, &function, inner)?;
    sign(cursor, b")")?;
    Ok(Tree::Call(function, Items::from_vec(arguments.into_vec())))
}

/// Reads what stands behind a word that may stand alone, where it's this tree.
#[tactic(auto, unfolding(crate::specs::Readers::Reading::read_alone))]
fn alone_at<I: Inner<Tree, Excess, Counted>>(
    alloc: Global,
    cursor: &mut Cursor<'_, Counted>,
    function: ListOf<u8>,
    tree: Tree,
    inner: &I,
) -> Result<Tree, Stop<Excess>>
    requires { I.may_read inner.now }
    ensures { Reads (λ tree. tree) (reading.read_alone (tree_of (I.reads inner.now wants.Value))
        (tree_of (I.reads inner.now wants.Truth)) function tree) cursor.old result cursor.new }
{
    if sign_comes(cursor, b"(") {
        call_at(alloc, cursor, function, inner)
    } else {
        Ok(tree)
    }
}

/// Reads what stands behind a word.
#[tactic(auto, unfolding(crate::specs::Readers::Reading::read_behind_word))]
fn behind_word<I: Inner<Tree, Excess, Counted>>(
    alloc: Global,
    cursor: &mut Cursor<'_, Counted>,
    function: ListOf<u8>,
    inner: &I,
) -> Result<Tree, Stop<Excess>>
    requires { I.may_read inner.now }
    ensures { Reads (λ tree. tree) (reading.read_behind_word (tree_of (I.reads inner.now wants.Value))
        (tree_of (I.reads inner.now wants.Truth)) function) cursor.old result cursor.new }
{
    if function.as_slice() == b"STET".as_slice() {
        alone_at(alloc, cursor, function, Tree::Stet, inner)
    } else if function.as_slice() == b"CONTINUE".as_slice() {
        alone_at(alloc, cursor, function, Tree::Continue, inner)
    } else {
        call_at(alloc, cursor, function, inner)
    }
}

/// Reads a primary that begins with a word.
#[tactic(auto, unfolding(crate::specs::Readers::Reading::read_worded))]
fn worded_at<I: Inner<Tree, Excess, Counted>>(
    alloc: Global,
    cursor: &mut Cursor<'_, Counted>,
    inner: &I,
) -> Result<Tree, Stop<Excess>>
    requires { I.may_read inner.now }
    ensures { Reads (λ tree. tree) (reading.read_worded (tree_of (I.reads inner.now wants.Value))
        (tree_of (I.reads inner.now wants.Truth))) cursor.old result cursor.new }
{
    let function = capital_word(alloc, cursor)?;
    behind_word(alloc, cursor, ListOf::new(function), inner)
}

/// Reads a primary but for one in parentheses.
#[tactic(auto, unfolding(crate::specs::Readers::Reading::read_primary))]
pub fn primary_at<I: Inner<Tree, Excess, Counted>>(
    alloc: Global,
    cursor: &mut Cursor<'_, Counted>,
    inner: &I,
) -> Result<Tree, Stop<Excess>>
    requires { I.may_read inner.now }
    ensures { Reads (λ tree. tree) (reading.read_primary (tree_of (I.reads inner.now wants.Value))
        (tree_of (I.reads inner.now wants.Truth))) cursor.old result cursor.new }
{
    if number_comes(cursor) {
        number_at(cursor)
    } else if text_comes(cursor) {
        quoted_at(alloc, cursor)
    } else if sign_comes(cursor, b"!") {
        current_at(alloc, cursor)
    } else if sign_comes(cursor, b"[") {
        reference_at(alloc, cursor)
    } else {
        worded_at(alloc, cursor, inner)
    }
}
