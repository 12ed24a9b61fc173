ghost use Rattle.std.specs.Prelude.{◌≡◌, IfOk};
ghost use Rattle.feed_find.specs.Choosing.{unless, chosen_factor, chosen_side, is_surely, chosen_truth};
ghost use Rattle.feed_find.specs.Choosing.{chosen_taken, chosen_branch};

use crate::chosen::Chosen;
use crate::joined::joined;
use crate::need::{Need, TruthNeed};
use lists::ListOf;
use rule_laws::Op;
use std::alloc::{AllocError, Global};
use zero_check::is_sure_number;

/// What is 0 already needs nothing.
pub fn unless(alloc: Global, already: bool, chosen: ListOf<Chosen>) -> ListOf<Chosen>
    ensures { result ≡ unless already chosen }
{
    if already {
        ListOf::new(Vec::new(alloc))
    } else {
        chosen
    }
}

// Of a product the first factor that can be made 0, else the left one.
fn chosen_factor(left: Need, right: Need) -> ListOf<Chosen>
    ensures { result ≡ chosen_factor left right }
{
    if !left.by_all.is_zero && right.by_all.is_zero {
        right.chosen
    } else {
        left.chosen
    }
}

/// What is chosen of the sides of an operation.
pub fn chosen_side(op: Op, left: Need, right: Need) -> Result<ListOf<Chosen>, AllocError>
    ensures { IfOk result (λ chosen. chosen ≡ chosen_side op left right) }
{
    match op {
        Op::Add | Op::Sub | Op::Max | Op::Min => joined(left.chosen, right.chosen),
        Op::Mul | Op::DivSafe => Ok(chosen_factor(left, right)),
        Op::Div | Op::Mod => Ok(left.chosen),
        Op::RoundTo if is_sure_number(&right.by_written) => Ok(left.chosen),
        Op::RoundTo => joined(left.chosen, right.chosen),
    }
}

fn is_surely(truth: bool, sure: Option<bool>) -> bool
    ensures { result ≡ is_surely truth sure }
{
    match sure {
        Some(true) => truth,
        Some(false) => !truth,
        None => false,
    }
}

/// Of two conditions, what is chosen of the first that can surely be what decides for both, else of both.
pub fn chosen_truth(
    deciding: bool,
    left: TruthNeed,
    right: TruthNeed,
) -> Result<ListOf<Chosen>, AllocError>
    ensures { IfOk result (λ chosen. chosen ≡ chosen_truth deciding left right) }
{
    if is_surely(deciding, left.by_all.sure) {
        Ok(left.chosen)
    } else if is_surely(deciding, right.by_all.sure) {
        Ok(right.chosen)
    } else {
        joined(left.chosen, right.chosen)
    }
}

// Of an `IF`, what is chosen of the branch that is surely taken, with what makes that sure; else of both.
fn chosen_taken(
    sure: Option<bool>,
    truth: ListOf<Chosen>,
    left: ListOf<Chosen>,
    right: ListOf<Chosen>,
) -> Result<ListOf<Chosen>, AllocError>
    ensures { IfOk result (λ chosen. chosen ≡ chosen_taken sure truth left right) }
{
    match sure {
        Some(true) => joined(truth, left),
        Some(false) => joined(truth, right),
        None => joined(left, right),
    }
}

/// What is chosen of the parts of an `IF`.
pub fn chosen_branch(
    truth: TruthNeed,
    left: Need,
    right: Need,
) -> Result<ListOf<Chosen>, AllocError>
    ensures { IfOk result (λ chosen. chosen ≡ chosen_branch truth left right) }
{
    if !truth.by_written.sure.is_some() && left.by_all.is_zero && right.by_all.is_zero {
        joined(left.chosen, right.chosen)
    } else {
        chosen_taken(truth.by_all.sure, truth.chosen, left.chosen, right.chosen)
    }
}
