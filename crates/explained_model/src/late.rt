ghost use Rattle.std.specs.Prelude.{◌≡◌, ◌++◌, IfOk, OnOk, Some};
ghost use Rattle.check_order.specs.Verdict.{IsOrderFault};
ghost use Rattle.cube_space.specs.Cells.{IsCell};
ghost use Rattle.explained_model.specs.Late as late;

use crate::files::bound_model;
use cell_names::write_cell_named;
use check_order::{OrderFault, check_order};
use file_passes::{Cause, Readings};
use late_example::{LateExample, late_example};
use model_bind::Bound;
use rule_model::Model;
use std::alloc::{AllocError, Global};

// What the order check finds wrong with a model.
fn order_fault(alloc: Global, model: &Model) -> Option<OrderFault>
    ensures { late.IsOrderVerdict model.now result }
{
    match check_order(alloc, model) {
        Ok(()) => None,
        Err(fault) => Some(fault),
    }
}

// Adds a word, a cell, and its number at the position that decides.
fn push_cell(
    alloc: Global,
    out: &mut Vec<u8>,
    word: &[u8],
    model: &Model,
    cell: u64,
    number: u64,
) -> Result<(), AllocError>
    requires { IsCell model.now.space cell }
    ensures { OnOk result (out.new.items
        ≡ out.old.items ++ late.cell_line word.now model.now.space cell number) }
{
    out.extend_from_slice(word)?;
    write_cell_named(model, cell, out)?;
    out.extend_from_slice(format!(in alloc; " {number}\n")?.as_bytes())
}

// The lines of an example.
fn example_lines(alloc: Global, model: &Model, example: LateExample) -> Result<Vec<u8>, AllocError>
    requires from { IsCell model.now.space example.from }
    requires to { IsCell model.now.space example.to }
    ensures { IfOk result (λ lines. lines.items ≡ late.example_lines model.now.space example) }
{
    let mut lines = Vec::new(alloc);
    push_cell(
        alloc,
        &mut lines,
        b"  from ",
        model,
        example.from,
        example.from_rank,
    )?;
    push_cell(
        alloc,
        &mut lines,
        b"  to ",
        model,
        example.to,
        example.to_rank,
    )?;
    Ok(lines)
}

// The lines of what the order check finds wrong.
fn fault_lines(alloc: Global, model: &Model, fault: OrderFault) -> Result<Vec<u8>, AllocError>
    requires { IsOrderFault model.now fault }
    ensures { IfOk result (λ lines. late.AreFaultLines model.now (Some fault) lines.items) }
{
    let OrderFault::NotEarlier {
        cube,
        statement,
        reference,
    } = fault
    else {
        return Ok(Vec::new(alloc));
    };
    match late_example(alloc, model, cube, statement, reference)? {
        Some(example) => example_lines(alloc, model, example),
        None => Ok(Vec::new(alloc)),
    }
}

fn order_lines(alloc: Global, model: &Model) -> Result<Vec<u8>, AllocError>
    ensures { IfOk result (λ lines. late.AreOrderLines model.now lines.items) }
{
    match order_fault(alloc, model) {
        Some(fault) => fault_lines(alloc, model, fault),
        None => Ok(Vec::new(alloc)),
    }
}

// The lines of the model that the files are bound to.
fn bound_lines(alloc: Global, bound: &Option<Bound>) -> Result<Vec<u8>, AllocError>
    ensures { IfOk result (λ lines. late.AreBoundLines bound.now lines.items) }
{
    match bound {
        Some(bound) => order_lines(alloc, &bound.model),
        None => Ok(Vec::new(alloc)),
    }
}

/// The lines that explain a refusal for this cause by the model of the model file of this name: of a reference that
/// isn't earlier a cell of its statement's area, the cell that is read from there, and the numbers of both at the
/// position of the order that decides. It fails only when out of memory.
pub fn late_lines(
    alloc: Global,
    readings: &Readings,
    name: &str,
    cause: &Cause,
) -> Result<Vec<u8>, AllocError>
    ensures { IfOk result (λ lines. late.AreLateLines name.now readings.now cause.now lines.items) }
{
    let Cause::NotEarlier(_) = cause else {
        return Ok(Vec::new(alloc));
    };
    let bound = bound_model(alloc, readings, name)?;
    bound_lines(alloc, &bound)
}
