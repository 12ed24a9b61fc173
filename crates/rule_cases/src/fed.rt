ghost use Rattle.cube_space.specs.Cells.{IsCell};

use crate::refusal::Refusal;
use cell_store::{CellSet, Store};
use cube_space::MAX_DIMENSIONS;
use feed_map::{Fed, FedFault, Feeding};
use feed_sources::SourceModel;
use rule_model::Model;
use sparse_sum::Walk;
use std::alloc::{AllocError, Global};

/// The most fed cells that are printed one by one.
const MAX_TOLD: u64 = 40;

/// The most cells of a walk that are counted.
const MAX_WALKED: u64 = 1_000_000;

/// Adds how many cells are fed over what is stored: `, fed 7`.
pub fn add_count(
    alloc: Global,
    model: &SourceModel,
    store: &Store,
    told: &mut String,
) -> Result<(), Refusal> {
    match Feeding::of(alloc, model, store) {
        Ok(feeding) => {
            let count = feeding.fed.count();
            let piece = format!(in alloc; ", fed {count}")?;
            Ok(told.push_str(&piece)?)
        }
        Err(FedFault::FedLimit(count)) => {
            let piece = format!(in alloc; ", FedLimit({count})")?;
            Ok(told.push_str(&piece)?)
        }
        Err(FedFault::Memory) => Err(Refusal::Memory),
    }
}

/// Adds the fed cells, a line each, rising by their numbers; of many cells the first and the last.
pub fn add_cells(
    alloc: Global,
    model: &SourceModel,
    store: &Store,
    told: &mut String,
) -> Result<(), Refusal> {
    let fed = match Feeding::of(alloc, model, store) {
        Ok(feeding) => feeding.fed,
        Err(FedFault::FedLimit(count)) => {
            let piece = format!(in alloc; "\nFedLimit({count})")?;
            return Ok(told.push_str(&piece)?);
        }
        Err(FedFault::Memory) => return Err(Refusal::Memory),
    };
    let count = fed.count();
    let piece = format!(in alloc; "\n{count} fed cells")?;
    told.push_str(&piece)?;
    let mut from = 0;
    for place in 0..count {
        let Some(cell) = fed.next_from(from) else {
            return Ok(told.push_str("\nfewer than counted")?);
        };
        if count <= MAX_TOLD || place == 0 || place + 1 == count {
            told.push_str("\nfed ")?;
            add_name(alloc, model.model(), cell, told)?;
        }
        from = cell.saturating_add(1);
    }
    Ok(())
}

/// Adds how many stored or fed leaf cells a walk finds below a consolidated cell: `, of 3 cells`.
pub fn add_walked(
    alloc: Global,
    model: &SourceModel,
    store: &Store,
    cell: u64,
    told: &mut String,
) -> Result<(), Refusal>
    requires { IsCell model.now.space cell }
{
    if model.space().is_leaf(cell) {
        return Ok(());
    }
    let fed = match Feeding::of(alloc, model, store) {
        Ok(feeding) => feeding.fed,
        Err(FedFault::FedLimit(_)) => return Ok(told.push_str(", FedLimit")?),
        Err(FedFault::Memory) => return Err(Refusal::Memory),
    };
    let count = walked(model.model(), store, &fed, cell);
    let piece = format!(in alloc; ", of {count} cells")?;
    Ok(told.push_str(&piece)?)
}

fn walked(model: &Model, store: &Store, fed: &Fed, cell: u64) -> u64
    requires { IsCell model.now.space cell }
{
    let mut walk = Walk::at(cell);
    'each: for count in 0..MAX_WALKED {
        if walk
            .next(model.space(), model.weights(), store, fed)
            .is_none()
        {
            return count;
        }
    }
    MAX_WALKED
}

// How a cell is written: `'Plan' ('Actual', 'Jan', 'Sales')`.
fn add_name(alloc: Global, model: &Model, cell: u64, told: &mut String) -> Result<(), Refusal> {
    if cell >= model.space().size() {
        return Ok(told.push_str("no cell")?);
    }
    let mut text = Vec::new(alloc);
    write_name(model, cell, &mut text)?;
    match String::from_utf8(text) {
        Ok(text) => Ok(told.push_str(&text)?),
        Err(_) => Err(Refusal::Memory),
    }
}

fn write_name(model: &Model, cell: u64, text: &mut Vec<u8>) -> Result<(), AllocError>
    requires { IsCell model.now.space cell }
{
    let space = model.space();
    let mut at = [0u32; MAX_DIMENSIONS];
    let cube = space.place(cell, &mut at);
    if cube >= space.cubes() {
        return Ok(());
    }
    let shape = space.shape(cube);
    write_quoted(shape.name.shown(), text)?;
    let mut between: &[u8] = b" (";
    for (dim, element) in shape.dims.as_slice().iter().zip(at.iter()) {
        text.extend_from_slice(between)?;
        write_element(model, *dim, *element, text)?;
        between = b", ";
    }
    text.push(b')')?;
    Ok(())
}

fn write_element(
    model: &Model,
    dim: u32,
    element: u32,
    text: &mut Vec<u8>,
) -> Result<(), AllocError> {
    let space = model.space();
    if dim >= space.dimensions() {
        return Ok(());
    }
    let dimension = space.dimension(dim);
    if element >= dimension.len() {
        return Ok(());
    }
    write_quoted(dimension.name_of(element).shown(), text)
}

fn write_quoted(name: &[u8], text: &mut Vec<u8>) -> Result<(), AllocError> {
    text.push(b'\'')?;
    text.extend_from_slice(name)?;
    text.push(b'\'')?;
    Ok(())
}
