ghost use Rattle.std.specs.Prelude.{◌≡◌, ◌<◌, ◌++◌, [], true, OnOk, length, map, slice_index_or};
ghost use Rattle.cell_names.specs.CellNames.{cell_named, cube_name, element_names, listed, quoted_name};
ghost use Rattle.cell_names.specs.Inside.Names.{lead, quoted_names};
ghost use Rattle.cube_space.specs.Cells.{IsCell, is_place};
ghost use Rattle.cube_space.specs.Layout.{axes, cube_names};

use crate::names::write_quoted_name;
use cube_space::{MAX_DIMENSIONS, Space, axis, axis_count};
use rule_model::{Model, place_of};
use std::alloc::AllocError;

fn write_cube(space: &Space, cube: u32, out: &mut Vec<u8>) -> Result<(), AllocError>
    requires { cube < length space.now.cubes }
    ensures { OnOk result (out.new.items
        ≡ out.old.items ++ quoted_name (slice_index_or (cube_names space.now) cube [])) }
{
    write_quoted_name(space.shape(cube).name.shown(), out)
}

// Writes what stands before the name at a place.
fn write_lead(place: u32, out: &mut Vec<u8>) -> Result<(), AllocError>
    ensures { OnOk result (out.new.items ≡ out.old.items ++ lead place) }
{
    if place == 0 {
        return Ok(());
    }
    out.extend_from_slice(b", ")
}

// Writes the names of elements, one of each dimension of the cube.
fn write_elements(
    space: &Space,
    cube: u32,
    elements: &[u32],
    out: &mut Vec<u8>,
) -> Result<(), AllocError>
    requires { is_place space.now cube elements.now ≡ true }
    ensures { OnOk result (out.new.items
        ≡ out.old.items ++ listed (quoted_names (axes space.now cube) elements.now)) }
{
    for place in 0..axis_count(space, cube) {
        write_lead(place, out)?;
        let dimension = axis(space, cube, place);
        write_quoted_name(dimension.name_of(elements[place as usize]).shown(), out)?;
    }
    Ok(())
}

/// Writes the name of the cube of a cell.
pub fn write_cell_cube(model: &Model, cell: u64, out: &mut Vec<u8>) -> Result<(), AllocError>
    requires { IsCell model.now.space cell }
    ensures { OnOk result (out.new.items ≡ out.old.items ++ cube_name model.now.space cell) }
{
    let mut at = [0u32; MAX_DIMENSIONS];
    let (cube, _) = place_of(model, cell, &mut at);
    write_cube(model.space(), cube, out)
}

/// Writes the names of the elements of a cell, with a comma and a space between each two.
pub fn write_cell_elements(model: &Model, cell: u64, out: &mut Vec<u8>) -> Result<(), AllocError>
    requires { IsCell model.now.space cell }
    ensures { OnOk result (out.new.items ≡ out.old.items ++ element_names model.now.space cell) }
{
    let mut at = [0u32; MAX_DIMENSIONS];
    let (cube, len) = place_of(model, cell, &mut at);
    write_elements(model.space(), cube, &at[..len], out)
}

/// Writes a cell as a command names it: `'Plan' ('Actual', 'Jan', 'Sales')`.
pub fn write_cell_named(model: &Model, cell: u64, out: &mut Vec<u8>) -> Result<(), AllocError>
    requires { IsCell model.now.space cell }
    ensures { OnOk result (out.new.items ≡ out.old.items ++ cell_named model.now.space cell) }
{
    write_cell_cube(model, cell, out)?;
    out.extend_from_slice(b" (")?;
    write_cell_elements(model, cell, out)?;
    out.extend_from_slice(b")")
}

/// Writes the name of the dimension at a place of a cube.
pub fn write_dimension(
    space: &Space,
    cube: u32,
    dim: u32,
    out: &mut Vec<u8>,
) -> Result<(), AllocError>
    requires cube { cube < length space.now.cubes }
    requires dim { dim < length (axes space.now cube) }
    ensures { OnOk result (out.new.items ≡ out.old.items
        ++ quoted_name (slice_index_or (map (λ axis. axis.name) (axes space.now cube)) dim [])) }
{
    write_quoted_name(axis(space, cube, dim).name().shown(), out)
}
