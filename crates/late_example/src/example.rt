ghost use Rattle.std.specs.Prelude.{◌≡◌, ◌<◌, length, option_copied, IfOk, Some};
ghost use Rattle.cube_space.specs.Cells.{IsCell, cube_of};
ghost use Rattle.rule_model.specs.BoundModel.{rules_of};
ghost use Rattle.rule_model.specs.Conditions.{IsStatement, IsPrecedent};
ghost use Rattle.ref_order.specs.Reads.{precedent_of};
ghost use Rattle.late_example.specs.Example.{IsAnswer, at_number};
ghost use Rattle.late_example.specs.Inside.Answers.{IsAnswerFor, IsAnswerOf, IsShown};

use crate::position::late_from;
use crate::rank::rank_at;
use crate::reads::read_for;
use crate::search::{Sought, first_late};
use crate::shown::{first_cell, late_read};
use cube_space::MAX_DIMENSIONS;
use ref_order::{AreaCells, Known, Read};
use rule_model::{Model, Statement};
use std::alloc::{AllocError, Global};

/// A cell of a statement's area that reads a cell which doesn't stand before it. Cells are named by their number in the
/// space.
#[derive(Clone, Copy)]
pub struct LateExample {
    /// The cell of the statement.
    pub from: u64,
    /// The cube of the cell that is read.
    pub to_cube: u32,
    /// The cell that is read.
    pub to: u64,
    /// The position of the order that decides, from 0, or [`MAX_POSITIONS`](ref_order::MAX_POSITIONS) where the level
    /// does.
    pub position: u32,
    /// The number of the cell of the statement at this position, or its level.
    pub from_rank: u64,
    /// The number there of the cell that is read, or its level.
    pub to_rank: u64,
}

/// Finds the example that explains why a reference of a statement of a cube isn't earlier, both counted from 1 as in
/// the fault of the order check. None where it is, or where there is no such statement or reference.
pub fn late_example(
    alloc: Global,
    model: &Model,
    cube: u32,
    statement: u32,
    reference: u32,
) -> Result<Option<LateExample>, AllocError>
    requires { cube < length model.now.space.cubes }
    ensures { IfOk result (IsAnswer model.now cube statement reference) }
{
    // a model says of itself that it is one
    let _space = model.space();
    let Some(statement) = statement_at(model, cube, statement) else {
        return Ok(None);
    };
    match example_of_kind(alloc, model, cube, statement, reference, true)? {
        Some(example) => Ok(Some(example)),
        None => example_of_kind(alloc, model, cube, statement, reference, false),
    }
}

fn statement_at(model: &Model, cube: u32, number: u32) -> Option<&Statement>
    requires { cube < length model.now.space.cubes }
    ensures { option_copied result ≡ at_number (rules_of model.now cube).statements number }
{
    if number == 0 {
        return None;
    }
    model
        .rules(cube)
        .statements
        .as_slice()
        .get(number as usize - 1)
}

// The example for cells of one kind.
fn example_of_kind(
    alloc: Global,
    model: &Model,
    cube: u32,
    statement: &Statement,
    reference: u32,
    kind: bool,
) -> Result<Option<LateExample>, AllocError>
    requires cube { cube < length model.now.space.cubes }
    requires statement { IsStatement model.now.space cube statement.now }
    ensures { IfOk result (IsAnswerFor model.now cube statement.now reference kind) }
{
    match read_for(alloc, statement, reference, kind)? {
        Some(read) => example_of(alloc, model, cube, statement, kind, read),
        None => Ok(None),
    }
}

// The example of what is read for cells of a kind.
fn example_of(
    alloc: Global,
    model: &Model,
    cube: u32,
    statement: &Statement,
    kind: bool,
    read: Read,
) -> Result<Option<LateExample>, AllocError>
    requires cube { cube < length model.now.space.cubes }
    requires statement { IsStatement model.now.space cube statement.now }
    requires read { IsPrecedent model.now.space cube (precedent_of read) }
    ensures { IfOk result (IsAnswerOf model.now cube statement.now kind (precedent_of read.entry)) }
{
    let cells = AreaCells {
        model,
        cube,
        area: &statement.area,
    };
    // a model says of itself that it is one
    let _space = model.space();
    let mut known = Known::none(alloc);
    known.begin();
    let Some(position) = late_from(cells, &mut known, kind, read, 0) else {
        return Ok(None);
    };
    let sought = Sought {
        kind,
        read,
        position,
    };
    let narrow = first_late(alloc, cells, sought)?;
    let within = AreaCells {
        model,
        cube,
        area: &narrow,
    };
    match first_cell(alloc, within)? {
        Some(cell) => Ok(shown(model, cell, sought)),
        None => Ok(None),
    }
}

// The example that a cell is.
fn shown(model: &Model, cell: u64, sought: Sought) -> Option<LateExample>
    requires cell { IsCell model.now.space cell }
    requires read { IsPrecedent model.now.space (cube_of model.now.space cell) (precedent_of sought.read) }
    ensures { IsShown model.now cell sought.entry result }
{
    let to = late_read(model, cell, sought)?;
    Some(LateExample {
        from: cell,
        to_cube: cube_of(model, to),
        to,
        position: sought.position,
        from_rank: rank_at(model, sought.position, cell),
        to_rank: rank_at(model, sought.position, to),
    })
}

fn cube_of(model: &Model, cell: u64) -> u32
    requires { IsCell model.now.space cell }
    ensures { result ≡ cube_of model.now.space cell }
{
    let mut at = [0u32; MAX_DIMENSIONS];
    model.space().place(cell, &mut at)
}
