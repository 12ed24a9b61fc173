ghost use Rattle.std.specs.Prelude.{◌≡◌, []};
ghost use Rattle.version_book.specs.declared.pass_view.Stage.TheVariants.{Idle};

use crate::ledger::Ledger;
use crate::pass_view::PassView;
use crate::rule::Rule;
use atomic_table::{Seat, Table, TableRule};
use history::{Effect, Entry, World};
use std::alloc::Global;
use std::snapshot::Snapshot;

/// One history of commits that all users share, with the state after it.
#[derive(Drop)]
pub struct BookOf<L: Drop, D, K, Q: TableRule<Option<L>, D, K>> {
    pub(crate) table: Table<Option<L>, D, K, Q, Global>,
    ghost counts: { (table.shared.table_id.words ≡ 2) × (table.shared.table_id.slots ≡ 1) },
}

/// The book of a world.
pub type Book<W> = BookOf<
    Ledger<W>,
    PassView<<W as World>::State, <W as World>::Writes>,
    Snapshot<<W as World>::State>,
    Rule<W>,
>;

/// A user's right to read and commit, and what it has seen of the history. It may go to another thread.
#[derive(Drop)]
pub struct PassOf<L, C, T> {
    pub(crate) place: Seat<Option<L>, PassView<C, T>>,
    pub(crate) number: u32,
    pub(crate) next: Option<u64>,
    ghost rests: { (place.me.1 ≡ []) × (place.me.0.stage ≡ Idle) },
    ghost who: { (number ≡ place.me.0.number) × (next ≡ place.me.0.next) },
}

/// A pass at the book of a world.
pub type Pass<W> = PassOf<Ledger<W>, <W as World>::State, <W as World>::Writes>;

pub(crate) type PassSeat<W> = Seat<
    Option<Ledger<W>>,
    PassView<<W as World>::State, <W as World>::Writes>,
>;

/// A state of the whole history as it was when the pass looked.
#[derive(Drop)]
pub struct Pin<W: World> {
    pub(crate) place: u64,
    pub(crate) state: W::State,
}

/// What a command did on a pin's state: the number of the version, and the effect.
#[derive(Drop)]
pub struct TriedOf<T, R> {
    pub place: u64,
    pub effect: Effect<T, R>,
}

/// A try in a world.
pub type Tried<W> = TriedOf<<W as World>::Writes, <W as World>::Reply>;

/// What a commit told: the number of the version that the reply speaks of, whether the command is in the history, and
/// the reply.
#[derive(Drop)]
pub struct Settled<R> {
    pub place: u64,
    pub accepted: bool,
    pub reply: R,
}

/// What is left of a book: the history and the state after it.
#[derive(Drop)]
pub struct ClosedOf<S, T> {
    pub history: Vec<Entry<T>>,
    pub state: S,
}

/// What is left of the book of a world.
pub type Closed<W> = ClosedOf<<W as World>::State, <W as World>::Writes>;
