ghost use Rattle.std.specs.Prelude.{◌≡◌, ◌∷◌, [], Bool};
ghost use Rattle.cube_lex.specs.Lexeme.{Lexeme};
ghost use Rattle.grammar.specs.Cursor.{Reads};
ghost use Rattle.grammar.specs.Reading.{Reader, starts, all_of};
ghost use Rattle.grammar.specs.Lists.{read_behind, read_further, read_listed, read_names};

use crate::basic::{sign, sign_comes};
use crate::cursor::{Cursor, Scan};
use crate::stop::Stop;
use crate::values::name;
use dim_name::Name;
use lists::ListOf;
use std::alloc::Global;

/// What reads an item of a list.
pub trait Item<T, C, S: Scan<C>> {
    ghost may_read: { Self → Type 0 };

    ghost reads: { Self → Reader Lexeme S C T };

    /// Reads an item.
    fn read(&self, alloc: Global, cursor: &mut Cursor<'_, S>) -> Result<T, Stop<C>>
        requires { may_read self.now }
        ensures { Reads (λ item. item) (reads self.now) cursor.old result cursor.new };
}

/// What reads items that stand one behind the other, and sees by the next token whether one more comes.
pub trait RepeatedItem<T, C, S: Scan<C>> {
    ghost may_repeat: { Self → Type 0 };

    ghost begins: { Self → Lexeme → Bool };

    ghost reads_next: { Self → Reader Lexeme S C T };

    /// Whether one more comes.
    fn comes(&self, cursor: &Cursor<'_, S>) -> bool
        ensures { result ≡ starts (begins self.now) cursor.now.tokens };

    /// Reads one more.
    fn read_next(&self, alloc: Global, cursor: &mut Cursor<'_, S>) -> Result<T, Stop<C>>
        requires { may_repeat self.now }
        ensures { Reads (λ item. item) (reads_next self.now) cursor.old result cursor.new };
}

/// An item behind a comma.
#[derive(Clone, Copy)]
struct BehindComma<'a, I> {
    item: &'a I,
}

impl<'a, T, C, S: Scan<C>, I: Item<T, C, S>> RepeatedItem<T, C, S> for BehindComma<'a, I> {
    ghost use Rattle.std.specs.Prelude.{codes};
    ghost use Rattle.grammar.specs.Tokens.{is_sign};
    ghost use Rattle.grammar.specs.Lists.{read_next};

    ghost may_repeat = { λ behind. I.may_read behind.item.now };

    ghost begins = { λ _. is_sign (codes ",") };

    ghost reads_next = { λ behind. read_next S.scanned (I.reads behind.item.now) };

    fn comes(&self, cursor: &Cursor<'_, S>) -> bool {
        sign_comes(cursor, b",")
    }

    #[tactic(auto, unfolding(crate::specs::Lists::read_next))]
    fn read_next(&self, alloc: Global, cursor: &mut Cursor<'_, S>) -> Result<T, Stop<C>> {
        sign(cursor, b",")?;
        self.item.read(alloc, cursor)
    }
}

/// Reads items as long as they come, behind those that were read before. Each takes a token, so there are no more than
/// tokens.
fn all_behind<T: Drop, C, S: Scan<C>, I: RepeatedItem<T, C, S>>(
    alloc: Global,
    cursor: &mut Cursor<'_, S>,
    item: &I,
    mut items: Vec<T>,
) -> Result<ListOf<T>, Stop<C>>
    requires { I.may_repeat item.now }
    ensures { Reads (λ items. items) (read_behind items.items (all_of (I.begins item.now) (I.reads_next item.now)))
        cursor.old result cursor.new }
{
    'item: for _ in 0..cursor.tokens.len() {
        if !item.comes(cursor) {
            return Ok(ListOf::new(items));
        }
        let next = item.read_next(alloc, cursor)?;
        items.push(next)?;
    }
    Ok(ListOf::new(items))
}

/// Reads items as long as they come.
pub fn repeated<T: Drop, C, S: Scan<C>, I: RepeatedItem<T, C, S>>(
    alloc: Global,
    cursor: &mut Cursor<'_, S>,
    item: &I,
) -> Result<ListOf<T>, Stop<C>>
    requires { I.may_repeat item.now }
    ensures { Reads (λ items. items) (all_of (I.begins item.now) (I.reads_next item.now)) cursor.old result cursor.new }
{
    all_behind(alloc, cursor, item, Vec::new(alloc))
}

/// Reads items as long as they come behind a first, and gives all.
pub fn repeated_behind<T: Drop, C, S: Scan<C>, I: RepeatedItem<T, C, S>>(
    alloc: Global,
    cursor: &mut Cursor<'_, S>,
    item: &I,
    first: T,
) -> Result<ListOf<T>, Stop<C>>
    requires { I.may_repeat item.now }
    ensures { Reads (λ items. items) (read_behind (first ∷ []) (all_of (I.begins item.now) (I.reads_next item.now)))
        cursor.old result cursor.new }
{
    // most lists have one item
    let mut items = Vec::with_capacity(alloc, 1)?;
    items.push(first)?;
    all_behind(alloc, cursor, item, items)
}

/// Reads the items behind the first, `{ , item }`, and gives all.
#[tactic(auto, unfolding(crate::specs::Lists::read_further))]
pub fn further<T: Drop, C, S: Scan<C>, I: Item<T, C, S>>(
    alloc: Global,
    cursor: &mut Cursor<'_, S>,
    item: &I,
    first: T,
) -> Result<ListOf<T>, Stop<C>>
    requires { I.may_read item.now }
    ensures { Reads (λ items. items) (read_further S.scanned (I.reads item.now) first) cursor.old result cursor.new }
{
    repeated_behind(alloc, cursor, &BehindComma { item }, first)
}

/// Reads `item { , item }`.
#[tactic(auto, unfolding(crate::specs::Lists::read_listed))]
pub fn listed<T: Drop, C, S: Scan<C>, I: Item<T, C, S>>(
    alloc: Global,
    cursor: &mut Cursor<'_, S>,
    item: &I,
) -> Result<ListOf<T>, Stop<C>>
    requires { I.may_read item.now }
    ensures { Reads (λ items. items) (read_listed S.scanned (I.reads item.now)) cursor.old result cursor.new }
{
    let first = item.read(alloc, cursor)?;
    further(alloc, cursor, item, first)
}

/// What takes a name.
struct NameItem;

impl<C, S: Scan<C>> Item<Name, C, S> for NameItem {
    ghost use Rattle.grammar.specs.Reading.{take_one};
    ghost use Rattle.grammar.specs.Tokens.{name};

    ghost may_read = { λ _. Unit {0} };

    ghost reads = { λ _. take_one S.scanned name };

    fn read(&self, alloc: Global, cursor: &mut Cursor<'_, S>) -> Result<Name, Stop<C>> {
        name(alloc, cursor)
    }
}

/// Reads `name { , name }`.
#[tactic(auto, unfolding(crate::specs::Lists::read_names))]
pub fn names<C, S: Scan<C>>(
    alloc: Global,
    cursor: &mut Cursor<'_, S>,
) -> Result<ListOf<Name>, Stop<C>>
    ensures { Reads (λ names. names) (read_names S.scanned) cursor.old result cursor.new }
{
    listed(alloc, cursor, &NameItem)
}
