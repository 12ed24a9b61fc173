ghost use Rattle.cube_space.specs.Cells.{IsCell};
ghost use Rattle.rule_laws.specs.OrderByPlace.{IsOrderedByPlace};
ghost use Rattle.rule_model.specs.System.{system_of, positions_of};
ghost use Rattle.rule_dense.specs.Limits.{IsLow, HasSmallCubes};
ghost use Rattle.std.specs.Prelude.{IsTrue};

use crate::courses::add_course;
use crate::fed::{add_cells, add_count, add_walked};
use crate::kind::Kind;
use crate::refusal::Refusal;
use crate::values::value_text;
use cell_store::{Store, StoreFault};
use cube_fixed::Money;
use feed_sources::SourceModel;
use rule_dense::{MAX_CUBE_CELLS, dense};
use rule_model::{cell_of, is_input};
use std::alloc::Global;
use user_text::UserBody;

/// Adds the answer to each command, a line each, with what a case of this kind prints besides.
pub fn answer_commands(
    alloc: Global,
    model: &SourceModel,
    text: &[u8],
    kind: Kind,
    told: &mut String,
) -> Result<(), Refusal>
    requires ordered { IsOrderedByPlace (system_of model.now) (positions_of model.now) }
    requires low { IsLow model.now }
{
    let commands = match user_text::parse(alloc, text, 0) {
        Ok(commands) => commands,
        Err(fault) => return Err(Refusal::of(alloc, &fault)),
    };
    if !has_small_cubes(model) {
        return Err(Refusal::Memory);
    }
    let mut store = Store::new(alloc);
    for command in &commands {
        told.push('\n')?;
        let line = answer_to(alloc, model, &mut store, &command.body, kind)?;
        told.push_str(&line)?;
    }
    if kind == Kind::Fed {
        add_cells(alloc, model, &store, told)?;
    }
    Ok(())
}

fn has_small_cubes(model: &SourceModel) -> bool
    ensures { IsTrue result → HasSmallCubes model.now.space }
{
    for cube in 0..model.space().cubes() {
        if model.space().cells(cube) > MAX_CUBE_CELLS {
            return false;
        }
    }
    true
}

fn answer_to(
    alloc: Global,
    model: &SourceModel,
    store: &mut Store,
    command: &UserBody,
    kind: Kind,
) -> Result<String, Refusal>
    requires ordered { IsOrderedByPlace (system_of model.now) (positions_of model.now) }
    requires low { IsLow model.now }
    requires small { HasSmallCubes model.now.space }
{
    match command {
        UserBody::Put(text, number) => {
            let cell = cell_of(model.model(), &text.cube, text.elements.as_slice());
            put(alloc, model, store, cell, *number, kind)
        }
        UserBody::Get(text) => {
            let cell = cell_of(model.model(), &text.cube, text.elements.as_slice());
            told_of(alloc, model, store, cell, kind)
        }
        _ => Ok(String::from_str(alloc, "neither PUT nor GET")?),
    }
}

fn put(
    alloc: Global,
    model: &SourceModel,
    store: &mut Store,
    cell: Option<u64>,
    number: Money,
    kind: Kind,
) -> Result<String, Refusal> {
    let Some(cell) = cell else {
        return Ok(String::from_str(alloc, "no cell")?);
    };
    if cell >= model.space().size() {
        return Ok(String::from_str(alloc, "no cell")?);
    }
    if !model.space().is_leaf(cell) {
        return Ok(String::from_str(alloc, "no leaf cell")?);
    }
    if !is_input(model.model(), cell) {
        return Ok(String::from_str(alloc, "not open for input")?);
    }
    match store.apply(alloc, &[(cell, number)]) {
        Ok(more) => *store = more,
        Err(StoreFault::StoreLimit(_)) => return Ok(String::from_str(alloc, "StoreLimit")?),
        Err(StoreFault::Memory) => return Err(Refusal::Memory),
    }
    let mut told = String::from_str(alloc, "stored")?;
    if kind == Kind::Fed {
        add_count(alloc, model, store, &mut told)?;
    }
    Ok(told)
}

// The value of a cell, and how it is evaluated.
fn told_of(
    alloc: Global,
    model: &SourceModel,
    store: &Store,
    cell: Option<u64>,
    kind: Kind,
) -> Result<String, Refusal>
    requires ordered { IsOrderedByPlace (system_of model.now) (positions_of model.now) }
    requires low { IsLow model.now }
    requires small { HasSmallCubes model.now.space }
{
    let Some(cell) = cell else {
        return Ok(String::from_str(alloc, "no cell")?);
    };
    if cell >= model.space().size() {
        return Ok(String::from_str(alloc, "no cell")?);
    }
    let value = dense(alloc, model.model(), store, cell)?;
    let mut told = value_text(alloc, value)?;
    if kind == Kind::Courses {
        add_course(alloc, model.model(), store, cell, &mut told)?;
    }
    if kind == Kind::Fed {
        add_walked(alloc, model, store, cell, &mut told)?;
    }
    Ok(told)
}
