ghost use Rattle.std.specs.Prelude.{◌≡◌, ◌+◌, ◌^◌, ◌<◌, true, length, All, IfOk};
ghost use Rattle.rule_laws.specs.Meaning.{each_reference, each_reference_of_truth, precedents, truth_precedents};
ghost use Rattle.rule_laws.specs.ZeroTest.{operands, operands_of_truth};
ghost use Rattle.feed_find.specs.Choosing.{need, truth_need, of_reference};
ghost use Rattle.feed_find.specs.Views.{IsAsked, IsChosen, IsCounted, IsCountedTruth, IsKept};
ghost use Rattle.feed_find.specs.Views.{is_askable, choose_from};

use crate::asked::Asked;
use crate::choice::choose;
use crate::kept::Kept;
use crate::need::{Need, TruthNeed};
use crate::needs::{
    of_binary, of_both, of_compare, of_either, of_if, of_opposite, of_reference, of_unary, plain,
};
use rule_laws::{Formula, Reference, Truth};
use std::alloc::{AllocError, Global};
use zero_check::{of_continue, of_number, of_operand, of_table};

// What is needed of a reference of an area, behind so many.
fn reference_need<'a>(
    alloc: Global,
    asked: Asked<'a>,
    reference: &'a Reference,
    before: u32,
    kept: &mut Kept<'a>,
) -> Result<Need, AllocError>
    requires asked { IsAsked asked }
    requires known { is_askable asked reference.now ≡ true }
    requires room { before + 1 < 2 ^ 32 }
    requires kept { IsKept asked.model.now asked.cube kept.old }
    ensures need { IfOk result (λ need. need
        ≡ of_reference before reference.now (choose_from asked.entry reference.now)) }
    ensures valid { IfOk result (λ need. All (IsChosen asked.entry.model.now.space) need.chosen) }
    ensures kept { IsKept asked.entry.model.now asked.entry.cube kept.new }
{
    let found = choose(alloc, asked, reference, kept)?;
    of_reference(alloc, before, reference, found)
}

/// What is needed of a formula of an area, behind so many references.
#[cycle(needed)]
pub fn needed<'a>(
    alloc: Global,
    asked: Asked<'a>,
    formula: &'a Formula,
    before: u32,
    kept: &mut Kept<'a>,
) -> Result<Need, AllocError>
    requires asked { IsAsked asked }
    requires known { each_reference (is_askable asked) formula.now ≡ true }
    requires few { operands formula.now < 2 ^ 32 }
    requires room { before + length (precedents formula.now) < 2 ^ 32 }
    requires kept { IsKept asked.model.now asked.cube kept.old }
    ensures need { IfOk result (λ found. found ≡ need (choose_from asked.entry) formula.now before) }
    ensures counted { IfOk result (IsCounted formula.now before) }
    ensures valid { IfOk result (λ found. All (IsChosen asked.entry.model.now.space) found.chosen) }
    ensures kept { IsKept asked.entry.model.now asked.entry.cube kept.new }
{
    match formula {
        Formula::Number(number) => Ok(plain(alloc, before, of_number(*number))),
        Formula::Stet => Ok(plain(alloc, before, of_operand(true))),
        Formula::Continue => Ok(plain(alloc, before, of_continue())),
        Formula::Children(_) => Ok(plain(alloc, before + 1, of_operand(false))),
        Formula::Table(_, _) => Ok(plain(alloc, before, of_table())),
        Formula::Ref(reference) => reference_need(alloc, asked, reference, before, kept),
        Formula::Binary(op, left, right) => {
            let left = needed(alloc, asked, left.get(), before, kept)?;
            let right = needed(alloc, asked, right.get(), left.behind, kept)?;
            of_binary(alloc, *op, left, right)
        }
        Formula::Unary(fun, inner) => {
            let inner = needed(alloc, asked, inner.get(), before, kept)?;
            Ok(of_unary(*fun, inner))
        }
        Formula::If(truth, left, right) => {
            let truth = truth_needed(alloc, asked, truth.get(), before, kept)?;
            let left = needed(alloc, asked, left.get(), truth.behind, kept)?;
            let right = needed(alloc, asked, right.get(), left.behind, kept)?;
            of_if(alloc, truth, left, right)
        }
    }
}

// What is needed of a condition of an area, behind so many references.
#[cycle(needed)]
fn truth_needed<'a>(
    alloc: Global,
    asked: Asked<'a>,
    truth: &'a Truth,
    before: u32,
    kept: &mut Kept<'a>,
) -> Result<TruthNeed, AllocError>
    requires asked { IsAsked asked }
    requires known { each_reference_of_truth (is_askable asked) truth.now ≡ true }
    requires few { operands_of_truth truth.now < 2 ^ 32 }
    requires room { before + length (truth_precedents truth.now) < 2 ^ 32 }
    requires kept { IsKept asked.model.now asked.cube kept.old }
    ensures need { IfOk result (λ found. found ≡ truth_need (choose_from asked.entry) truth.now before) }
    ensures counted { IfOk result (IsCountedTruth truth.now before) }
    ensures valid { IfOk result (λ found. All (IsChosen asked.entry.model.now.space) found.chosen) }
    ensures kept { IsKept asked.entry.model.now asked.entry.cube kept.new }
{
    match truth {
        Truth::Compare(rel, left, right) => {
            let left = needed(alloc, asked, left, before, kept)?;
            let right = needed(alloc, asked, right, left.behind, kept)?;
            of_compare(*rel, left, right)
        }
        Truth::And(left, right) => {
            let left = truth_needed(alloc, asked, left.get(), before, kept)?;
            let right = truth_needed(alloc, asked, right.get(), left.behind, kept)?;
            of_both(alloc, left, right)
        }
        Truth::Or(left, right) => {
            let left = truth_needed(alloc, asked, left.get(), before, kept)?;
            let right = truth_needed(alloc, asked, right.get(), left.behind, kept)?;
            of_either(alloc, left, right)
        }
        Truth::Not(inner) => {
            let inner = truth_needed(alloc, asked, inner.get(), before, kept)?;
            Ok(of_opposite(inner))
        }
    }
}
