ghost use Rattle.std.specs.Prelude.{◌≡◌, IfOk, Some};
ghost use Rattle.explained_model.specs.Unfed as unfed;
ghost use Rattle.feed_check.specs.Verdict.{IsFirstFault};
ghost use Rattle.model_deploy.specs.Deployment.{fed_model};

use crate::files::bound_model;
use feed_check::{FeedCheckFault, check_feeders};
use feed_find::{find, with_found};
use file_passes::{Cause, Readings};
use model_bind::Bound;
use operand_cover::operand_lines;
use rule_model::Model;
use std::alloc::{AllocError, Global};

// The bound model with the feeders that are found for the cubes that ask for them.
fn fed_model(alloc: Global, bound: Bound) -> Result<Model, AllocError>
    ensures { IfOk result (λ model. model ≡ fed_model bound) }
{
    let Bound { model, asking } = bound;
    let found = find(alloc, &model, asking.as_slice())?;
    with_found(alloc, model, found.feeders)
}

// What the feeder check finds wrong with a model.
fn feeder_fault(model: &Model) -> Option<FeedCheckFault>
    ensures { unfed.IsFeederVerdict model.now result }
{
    match check_feeders(model) {
        Ok(()) => None,
        Err(fault) => Some(fault),
    }
}

// The lines of what the feeder check finds wrong.
fn fault_lines(alloc: Global, model: &Model, fault: FeedCheckFault) -> Result<Vec<u8>, AllocError>
    requires { IsFirstFault model.now fault }
    ensures { IfOk result (λ lines. unfed.AreFaultLines model.now (Some fault) lines.items) }
{
    match fault {
        FeedCheckFault::NotFed {
            cube,
            statement,
            operand,
        } => operand_lines(alloc, model, cube, statement, operand),
        FeedCheckFault::DenseTooLarge { .. } => Ok(Vec::new(alloc)),
    }
}

fn feeder_lines(alloc: Global, model: &Model) -> Result<Vec<u8>, AllocError>
    ensures { IfOk result (λ lines. unfed.AreFeederLines model.now lines.items) }
{
    match feeder_fault(model) {
        Some(fault) => fault_lines(alloc, model, fault),
        None => Ok(Vec::new(alloc)),
    }
}

// The lines of the model that the files are bound to.
fn bound_lines(alloc: Global, bound: Option<Bound>) -> Result<Vec<u8>, AllocError>
    ensures { IfOk result (λ lines. unfed.AreBoundLines bound lines.items) }
{
    match bound {
        Some(bound) => feeder_lines(alloc, &fed_model(alloc, bound)?),
        None => Ok(Vec::new(alloc)),
    }
}

/// The lines that explain a refusal for this cause by the model of the model file of this name: of an operand that
/// isn't fed, where it is a reference, whether a feeder covers it, and which one would. It fails only when out of
/// memory.
pub fn unfed_lines(
    alloc: Global,
    readings: &Readings,
    name: &str,
    cause: &Cause,
) -> Result<Vec<u8>, AllocError>
    ensures { IfOk result (λ lines. unfed.AreUnfedLines name.now readings.now cause.now lines.items) }
{
    let Cause::NotFed(_) = cause else {
        return Ok(Vec::new(alloc));
    };
    let bound = bound_model(alloc, readings, name)?;
    bound_lines(alloc, bound)
}
