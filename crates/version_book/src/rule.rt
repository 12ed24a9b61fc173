//! The rule of the table, and what each kind of step tells.
use crate::ledger::Ledger;
use crate::pass_view::PassView;
use atomic_table::{Join, Play, Split, TableRule};
use history::World;
use std::marker::PhantomData;
use std::snapshot::Snapshot;

/// What holds of a book and its passes between any two steps.
pub struct Rule<W>(PhantomData<W>);

impl<W: World> TableRule<Option<Ledger<W>>, PassView<W::State, W::Writes>, Snapshot<W::State>>
    for Rule<W> {
    ghost use Rattle.version_book.specs.Inside.Rule.{IsBook, founder};

    ghost holds = { λ key. IsBook (λ ledger. ledger.history.items) (λ ledger. ledger.opening.value) key.value };

    ghost first = { λ key. founder key.value };
}

pub(crate) struct Turns;

impl<W: World> Play<Option<Ledger<W>>, PassView<W::State, W::Writes>> for Turns {
    ghost use Rattle.version_book.specs.Inside.Plays.{turns};

    ghost then = { turns };
}

pub(crate) struct Looks;

impl<W: World> Play<Option<Ledger<W>>, PassView<W::State, W::Writes>> for Looks {
    ghost use Rattle.version_book.specs.Inside.Plays.{looks};

    ghost then = { looks };
}

pub(crate) struct Takes;

impl<W: World> Play<Option<Ledger<W>>, PassView<W::State, W::Writes>> for Takes {
    ghost use Rattle.version_book.specs.Inside.Plays.{takes_ledger};

    ghost then = { takes_ledger (λ ledger. ledger.history.items) (λ ledger. ledger.opening.value) };
}

pub(crate) struct Counts;

impl<W: World> Play<Option<Ledger<W>>, PassView<W::State, W::Writes>> for Counts {
    ghost use Rattle.version_book.specs.Inside.Plays.{counts};

    ghost then = { counts (λ ledger. ledger.history.items) };
}

pub(crate) struct Puts;

impl<W: World> Play<Option<Ledger<W>>, PassView<W::State, W::Writes>> for Puts {
    ghost use Rattle.version_book.specs.Inside.Plays.{puts};

    ghost then = { puts };
}

pub(crate) struct Frees;

impl<W: World> Play<Option<Ledger<W>>, PassView<W::State, W::Writes>> for Frees {
    ghost use Rattle.version_book.specs.Inside.Plays.{frees};

    ghost then = { frees };
}

pub(crate) struct Meets;

impl<C, T> Split<PassView<C, T>> for Meets {
    ghost use Rattle.version_book.specs.Inside.Plays.{giving, another};

    ghost left = { giving };

    ghost right = { another };
}

impl<C, T> Join<PassView<C, T>> for Meets {
    ghost use Rattle.version_book.specs.Inside.Plays.{together};
    ghost use Rattle.version_book.specs.Inside.Rule.{nobody};

    ghost both = { together };

    ghost spent = { nobody };
}
