ghost use Rattle.std.specs.Prelude.{◌≡◌, ◌+◌, ◌<◌, ◌≤◌, ◌^◌, IfOk};
ghost use Rattle.feed_find.specs.Choosing.{plain, picked, of_reference, of_binary, of_unary, of_if};
ghost use Rattle.feed_find.specs.Choosing.{of_compare, of_both, of_either, of_opposite};
ghost use Rattle.feed_find.specs.Views.{IsBlamedWithin, HaveRoom, HaveRoomIn, HaveRoomFor};

use crate::choice::Choice;
use crate::chosen::{Chosen, FoundFeeder};
use crate::joined::joined;
use crate::need::{Need, TruthNeed};
use crate::picks::{chosen_branch, chosen_side, chosen_truth, unless};
use crate::truths::{both, compared, either, opposite};
use lists::ListOf;
use rule_laws::{Finding, Fun, Op, Reference, Rel};
use std::alloc::{AllocError, Global};
use zero_check::{of_choice, of_function, of_operand, of_operation};

/// What is needed of a part that has no reference, behind so many.
pub fn plain(alloc: Global, before: u32, finding: Finding) -> Need
    ensures { result ≡ plain before finding }
{
    let by_all = finding;
    Need {
        by_written: finding,
        by_all,
        behind: before,
        chosen: ListOf::new(Vec::new(alloc)),
    }
}

// What is needed of a reference that is chosen.
fn chosen_one(alloc: Global, before: u32, can: bool, chosen: Chosen) -> Result<Need, AllocError>
    requires { before + 1 < 2 ^ 32 }
    ensures { IfOk result (λ need. need ≡ picked before can chosen) }
{
    let chosen = vec![in alloc; chosen]?;
    Ok(Need {
        by_written: of_operand(false),
        by_all: of_operand(can),
        behind: before + 1,
        chosen: ListOf::new(chosen),
    })
}

/// What is needed of a reference behind so many, by what can be done about it.
pub fn of_reference(
    alloc: Global,
    before: u32,
    reference: &Reference,
    choice: Choice,
) -> Result<Need, AllocError>
    requires { before + 1 < 2 ^ 32 }
    ensures { IfOk result (λ need. need ≡ of_reference before reference.now choice) }
{
    match choice {
        Choice::Covered => Ok(plain(alloc, before + 1, of_operand(true))),
        Choice::Turned(feeder) => {
            let cube = reference.cube;
            let found = Chosen::Found(FoundFeeder { cube, feeder });
            chosen_one(alloc, before, true, found)
        }
        Choice::Missing => chosen_one(alloc, before, false, Chosen::Unturned(before + 1)),
    }
}

/// What is needed of an operation, by what is of its sides.
pub fn of_binary(alloc: Global, op: Op, left: Need, right: Need) -> Result<Need, AllocError>
    requires left { IsBlamedWithin left }
    requires right { IsBlamedWithin right }
    requires room { HaveRoom left right }
    ensures need { IfOk result (λ need. need ≡ of_binary op left right) }
    ensures within { IfOk result IsBlamedWithin }
{
    let by_written = of_operation(op, &left.by_written, &right.by_written);
    let by_all = of_operation(op, &left.by_all, &right.by_all);
    let behind = right.behind;
    let chosen = chosen_side(op, left, right)?;
    Ok(Need {
        by_written,
        by_all,
        behind,
        chosen: unless(alloc, by_written.is_zero, chosen),
    })
}

/// What is needed of a function, by what is of its argument.
pub fn of_unary(fun: Fun, inner: Need) -> Need
    ensures { result ≡ of_unary fun inner }
{
    Need {
        by_written: of_function(fun, &inner.by_written),
        by_all: of_function(fun, &inner.by_all),
        behind: inner.behind,
        chosen: inner.chosen,
    }
}

/// What is needed of an `IF`, by what is of its parts.
pub fn of_if(alloc: Global, truth: TruthNeed, left: Need, right: Need) -> Result<Need, AllocError>
    requires left { IsBlamedWithin left }
    requires right { IsBlamedWithin right }
    requires room { HaveRoomIn truth left right }
    ensures need { IfOk result (λ need. need ≡ of_if truth left right) }
    ensures within { IfOk result IsBlamedWithin }
{
    let by_written = of_choice(&truth.by_written, &left.by_written, &right.by_written);
    let by_all = of_choice(&truth.by_all, &left.by_all, &right.by_all);
    let behind = right.behind;
    let chosen = chosen_branch(truth, left, right)?;
    Ok(Need {
        by_written,
        by_all,
        behind,
        chosen: unless(alloc, by_written.is_zero, chosen),
    })
}

/// What is needed of a comparison, by what is of its sides.
pub fn of_compare(rel: Rel, left: Need, right: Need) -> Result<TruthNeed, AllocError>
    requires room { HaveRoom left right }
    ensures { IfOk result (λ need. need ≡ of_compare rel left right) }
{
    let by_written = compared(rel, &left.by_written, &right.by_written);
    let by_all = compared(rel, &left.by_all, &right.by_all);
    let behind = right.behind;
    let chosen = joined(left.chosen, right.chosen)?;
    Ok(TruthNeed {
        by_written,
        by_all,
        behind,
        chosen,
    })
}

/// What is needed of `&`, by what is of its sides.
pub fn of_both(alloc: Global, left: TruthNeed, right: TruthNeed) -> Result<TruthNeed, AllocError>
    requires room { HaveRoomFor left right }
    ensures { IfOk result (λ need. need ≡ of_both left right) }
{
    let by_written = both(&left.by_written, &right.by_written);
    let by_all = both(&left.by_all, &right.by_all);
    let behind = right.behind;
    let chosen = chosen_truth(false, left, right)?;
    Ok(TruthNeed {
        by_written,
        by_all,
        behind,
        chosen: unless(alloc, by_written.sure.is_some(), chosen),
    })
}

/// What is needed of `%`, by what is of its sides.
pub fn of_either(alloc: Global, left: TruthNeed, right: TruthNeed) -> Result<TruthNeed, AllocError>
    requires room { HaveRoomFor left right }
    ensures { IfOk result (λ need. need ≡ of_either left right) }
{
    let by_written = either(&left.by_written, &right.by_written);
    let by_all = either(&left.by_all, &right.by_all);
    let behind = right.behind;
    let chosen = chosen_truth(true, left, right)?;
    Ok(TruthNeed {
        by_written,
        by_all,
        behind,
        chosen: unless(alloc, by_written.sure.is_some(), chosen),
    })
}

/// What is needed of `~`, by what is of its inner condition.
pub fn of_opposite(inner: TruthNeed) -> TruthNeed
    ensures { result ≡ of_opposite inner }
{
    TruthNeed {
        by_written: opposite(&inner.by_written),
        by_all: opposite(&inner.by_all),
        behind: inner.behind,
        chosen: inner.chosen,
    }
}
