ghost use Rattle.std.specs.Prelude.{◌≡◌, ◌<◌, ◌≤◌, length, map, take, IfOk, IfSome};
ghost use Rattle.cube_space.specs.Layout.{axes, most_dimensions};
ghost use Rattle.cube_space.specs.Cells.{IsCell, cell_number, cube_of};
ghost use Rattle.rule_laws.specs.Meaning.{Components};
ghost use Rattle.rule_model.specs.Conditions.{IsPrecedent};
ghost use Rattle.ref_order.specs.Reads.{precedent_of};
ghost use Rattle.late_example.specs.Inside.Narrowing.{first_of};
ghost use Rattle.late_example.specs.Inside.Shown.{IsFound, found_at, component_cell};

use crate::rank::{is_late, rank_at};
use crate::search::Sought;
use cube_space::MAX_DIMENSIONS;
use lists::ListOf;
use ref_order::{AreaCells, Read, axis};
use rule_model::{Model, place_of, target};
use std::alloc::{AllocError, Global};

/// The cell of a cube that has the first element of each set of an area.
pub fn first_cell(alloc: Global, cells: AreaCells) -> Result<Option<u64>, AllocError>
    ensures { IfOk result (λ cell. cell ≡ cell_number cells.entry.model.now.space cells.entry.cube
        (map first_of cells.entry.area.now.sets)) }
{
    let sets = cells.area.sets.as_slice();
    let mut elements = Vec::new(alloc);
    'each: for place in 0..sets.len() {
        elements.push(first_of(&sets[place]))?;
    }
    Ok(cells.model.space().number(cells.cube, &elements))
}

fn first_of(set: &Option<ListOf<u32>>) -> u32
    ensures { result ≡ first_of set.now }
{
    match set {
        Some(listed) => match listed.as_slice().first() {
            Some(element) => *element,
            None => 0,
        },
        None => 0,
    }
}

/// A cell that is read from this one and comes late for it.
pub fn late_read(model: &Model, cell: u64, sought: Sought) -> Option<u64>
    requires cell { IsCell model.now.space cell }
    requires read { IsPrecedent model.now.space (cube_of model.now.space cell) (precedent_of sought.read) }
    ensures { IsFound model.now cell sought.entry.position (precedent_of sought.entry.read) result }
{
    match sought.read {
        Read::Cell(reference) => late_only(model, cell, sought, target(model, reference, cell)),
        Read::Children(dim) => late_component(model, cell, sought, dim as usize),
    }
}

// The one cell that is read, where it comes late.
fn late_only(model: &Model, cell: u64, sought: Sought, read: Option<u64>) -> Option<u64>
    requires cell { IsCell model.now.space cell }
    requires read { IfSome read (IsCell model.now.space) }
    ensures { result ≡ found_at model.now cell sought.entry.position read }
{
    let read = read?;
    let own = rank_at(model, sought.position, cell);
    let its = rank_at(model, sought.position, read);
    if is_late(sought.position, own, its) {
        Some(read)
    } else {
        None
    }
}

// A component's cell that comes late.
fn late_component(model: &Model, cell: u64, sought: Sought, dim: usize) -> Option<u64>
    requires cell { IsCell model.now.space cell }
    requires dim { dim < length (axes model.now.space (cube_of model.now.space cell)) }
    ensures { IsFound model.now cell sought.entry.position (Components dim) result }
{
    // a model says of itself that it is one
    let _space = model.space();
    let mut at = [0u32; MAX_DIMENSIONS];
    let (cube, count) = place_of(model, cell, &mut at);
    let parts = axis(model, cube, dim).components(at[dim]);
    'each: for k in 0..parts.len() {
        let read = component_cell(model, cube, at, count, dim, &parts[k]);
        if let Some(read) = late_only(model, cell, sought, read) {
            return Some(read);
        }
    }
    None
}

// The cell of these elements with a component, where its weight isn't 0.
fn component_cell(
    model: &Model,
    cube: u32,
    at: [u32; MAX_DIMENSIONS],
    count: usize,
    dim: usize,
    part: &(u32, i64),
) -> Option<u64>
    requires count { count ≤ most_dimensions }
    requires dim { dim < count }
    ensures value { result ≡ component_cell model.now.space cube (take count at) dim part.now }
    ensures cell { IfSome result (IsCell model.now.space) }
{
    if part.1 == 0 {
        return None;
    }
    let mut other = at;
    other[dim] = part.0;
    model.space().number(cube, &other[..count])
}
