//! The rule of the table, and what each kind of step tells.
use crate::seat::SeatView;
use crate::version::About;
use atomic_table::{Join, Play, Split, TableRule};

pub struct MemoRule;

impl TableRule<(), SeatView, About> for MemoRule {
    ghost use Rattle.memo_cells.specs.Inside.Rule.{IsMemo, newcomer};

    ghost holds = { IsMemo };

    ghost first = { newcomer };
}

pub(crate) struct Loads;

impl Play<(), SeatView> for Loads {
    ghost use Rattle.memo_cells.specs.Inside.Plays.{loads};

    ghost then = { loads };
}

pub(crate) struct Claims;

impl Play<(), SeatView> for Claims {
    ghost use Rattle.memo_cells.specs.Inside.Plays.{claims};

    ghost then = { claims };
}

pub(crate) struct Puts;

impl Play<(), SeatView> for Puts {
    ghost use Rattle.memo_cells.specs.Inside.Plays.{puts};

    ghost then = { puts };
}

pub(crate) struct Meets;

impl Split<SeatView> for Meets {
    ghost use Rattle.memo_cells.specs.Inside.Plays.{another};

    ghost left = { λ v. v };

    ghost right = { another };
}

impl Join<SeatView> for Meets {
    ghost use Rattle.memo_cells.specs.Inside.Plays.{together};
    ghost use Rattle.memo_cells.specs.Inside.Rule.{nobody};

    ghost both = { together };

    ghost spent = { nobody };
}
