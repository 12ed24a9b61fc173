ghost use Rattle.std.specs.Prelude.{◌≡◌, [], ◌∷◌, ◌++◌, map, option_and_then, option_map, slice_get, OnOk, IfOk};
ghost use Rattle.operand_cover.specs.Operands.{operands, truth_operands, operand_at, reference_of};

use rule_laws::{Formula, Reference, Truth};
use std::alloc::{AllocError, Global};

/// An operand of a formula.
#[derive(Clone, Copy)]
pub(crate) enum Operand<'a> {
    Cell(&'a Reference),
    Other,
}

/// The reference that the operand of this number is, from 1, if it is one.
pub(crate) fn operand_at<'a>(
    alloc: Global,
    part: &'a Option<Formula>,
    operand: u32,
) -> Result<Option<&'a Reference>, AllocError>
    ensures { IfOk result (λ found. option_map (λ reference. reference.now) found ≡ operand_at part.now operand) }
{
    let Some(formula) = part else {
        return Ok(None);
    };
    let mut found = Vec::new(alloc);
    add_operands(formula, &mut found)?;
    Ok(cell_at(&found, operand.saturating_sub(1) as usize))
}

fn cell_at<'a>(found: &[Operand<'a>], place: usize) -> Option<&'a Reference>
    ensures { option_map (λ reference. reference.now) result
        ≡ option_and_then (λ known. known) (slice_get (map reference_of found.now) place) }
{
    match found.get(place) {
        Some(Operand::Cell(reference)) => Some(*reference),
        Some(Operand::Other) | None => None,
    }
}

fn add<'a>(found: &mut Vec<Operand<'a>>, operand: Operand<'a>) -> Result<(), AllocError>
    ensures { OnOk result (map reference_of found.new.items
        ≡ map reference_of found.old.items ++ reference_of operand.entry ∷ []) }
{
    found.push(operand)?;
    Ok(())
}

// Adds the operands of a formula, in reading order.
#[cycle(add_operands)]
fn add_operands<'a>(formula: &'a Formula, found: &mut Vec<Operand<'a>>) -> Result<(), AllocError>
    ensures { OnOk result (map reference_of found.new.items
        ≡ map reference_of found.old.items ++ operands formula.now) }
{
    match formula {
        Formula::Continue => Ok(()),
        Formula::Number(_) | Formula::Stet | Formula::Children(_) | Formula::Table(_, _) => {
            add(found, Operand::Other)
        }
        Formula::Ref(reference) => add(found, Operand::Cell(reference)),
        Formula::Binary(_, left, right) => {
            add_operands(left.get(), found)?;
            add_operands(right.get(), found)
        }
        Formula::Unary(_, inner) => add_operands(inner.get(), found),
        Formula::If(truth, left, right) => {
            add_truth(truth.get(), found)?;
            add_operands(left.get(), found)?;
            add_operands(right.get(), found)
        }
    }
}

#[cycle(add_operands)]
fn add_truth<'a>(truth: &'a Truth, found: &mut Vec<Operand<'a>>) -> Result<(), AllocError>
    ensures { OnOk result (map reference_of found.new.items
        ≡ map reference_of found.old.items ++ truth_operands truth.now) }
{
    match truth {
        Truth::Compare(_, left, right) => {
            add_operands(left, found)?;
            add_operands(right, found)
        }
        Truth::And(left, right) => {
            add_truth(left.get(), found)?;
            add_truth(right.get(), found)
        }
        Truth::Or(left, right) => {
            add_truth(left.get(), found)?;
            add_truth(right.get(), found)
        }
        Truth::Not(inner) => add_truth(inner.get(), found),
    }
}
