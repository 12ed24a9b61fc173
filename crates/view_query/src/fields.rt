ghost use Rattle.std.specs.Prelude.{◌≡◌, ℕ, ◌<◌, ◌++◌, ◌∷◌, [], All, List, OnOk, Some, length, map, slice_get};
ghost use Rattle.view_query.specs.declared.shape.Axis.{Axis as AxisValue};
ghost use Rattle.std.specs.List.{items_where_true};
ghost use Rattle.cube_fixed.specs.Text.{printed};
ghost use Rattle.dim_name.specs.Bytes.{tab};
ghost use Rattle.cube_space.specs.Layout.{axes};
ghost use Rattle.cube_space.specs.Cells.{IsSpace};
ghost use Rattle.view_query.specs.Table.{joined, shown_name};
ghost use Rattle.view_query.specs.Inside.Lines.{IsElementOf, IsLine};
ghost use Rattle.view_query.specs.Inside.Text.{names_across, names_along, tabbed, tabbed_if};

use crate::shape::Axis;
use cube_fixed::{Value, print};
use cube_space::{Space, axis};
use lists::ListOf;
use std::alloc::{AllocError, Global};

// The name of an element of an axis, as the model defines it.
fn shown_name<'a>(space: &'a Space, cube: u32, shown: &Axis, element: u32) -> &'a [u8]
    requires cube { cube < length space.now.cubes }
    requires element { IsElementOf (axes space.now cube) shown.now element }
    ensures { result.now ≡ shown_name space.now cube shown.now element }
{
    axis(space, cube, shown.place).name_of(element).shown()
}

// Writes a field with a tab behind it.
fn write_field(out: &mut Vec<u8>, text: &[u8]) -> Result<(), AllocError>
    ensures { OnOk result (out.new.items ≡ out.old.items ++ (text.now ++ tab ∷ [])) }
{
    out.extend_from_slice(text)?;
    out.push(b'\t')?;
    Ok(())
}

/// Writes the names of the elements of a line.
pub(crate) fn write_names(
    space: &Space,
    cube: u32,
    along: &[Axis],
    line: &[u32],
    out: &mut Vec<u8>,
) -> Result<(), AllocError>
    requires cube { cube < length space.now.cubes }
    requires line { IsLine (axes space.now cube) along.now line.now }
    ensures { OnOk result (out.new.items
        ≡ out.old.items ++ tabbed (names_along space.now cube along.now line.now)) }
{
    for index in 0..along.len() {
        write_field(out, shown_name(space, cube, &along[index], line[index]))?;
    }
    Ok(())
}

// Writes the name of the element of a line at an index, if the line is shown.
fn write_name_if(
    space: &Space,
    cube: u32,
    across: &Axis,
    element: u32,
    shown: bool,
    out: &mut Vec<u8>,
) -> Result<(), AllocError>
    requires cube { cube < length space.now.cubes }
    requires element { IsElementOf (axes space.now cube) across.now element }
    ensures { OnOk result (out.new.items
        ≡ out.old.items ++ tabbed_if shown (shown_name space.now cube across.now element)) }
{
    if shown {
        write_field(out, shown_name(space, cube, across, element))?;
    }
    Ok(())
}

/// Writes the names of the elements at an index of those lines that are shown.
pub(crate) fn write_names_across(
    space: &Space,
    cube: u32,
    along: &[Axis],
    index: usize,
    lines: &[ListOf<u32>],
    shown: &[bool],
    out: &mut Vec<u8>,
) -> Result<(), AllocError>
    requires cube { cube < length space.now.cubes }
    requires index { index < length along.now }
    requires lines { All (IsLine (axes space.now cube) along.now) lines.now }
    requires shown { length shown.now ≡ length lines.now }
    ensures { OnOk result ((across : AxisValue) → slice_get along.now index ≡ Some across → out.new.items
        ≡ out.old.items ++ tabbed (names_across space.now cube across index (items_where_true shown.now lines.now))) }
{
    for place in 0..lines.len() {
        let element = lines[place].as_slice()[index];
        write_name_if(space, cube, &along[index], element, shown[place], out)?;
    }
    Ok(())
}

// Writes a value, if its column is shown.
fn write_value_if(
    alloc: Global,
    value: Value,
    shown: bool,
    out: &mut Vec<u8>,
) -> Result<(), AllocError>
    ensures { OnOk result (out.new.items ≡ out.old.items ++ tabbed_if shown (printed value)) }
{
    if shown {
        print(alloc, value, out)?;
        out.push(b'\t')?;
    }
    Ok(())
}

/// Writes the values of those columns that are shown.
pub(crate) fn write_values(
    alloc: Global,
    values: &[Value],
    shown: &[bool],
    out: &mut Vec<u8>,
) -> Result<(), AllocError>
    requires { length shown.now ≡ length values.now }
    ensures { OnOk result (out.new.items
        ≡ out.old.items ++ tabbed (map printed (items_where_true shown.now values.now))) }
{
    for place in 0..values.len() {
        write_value_if(alloc, values[place], shown[place], out)?;
    }
    Ok(())
}

/// Ends the line that began at `start`: the tab behind its last field goes.
pub(crate) fn end_line(out: &mut Vec<u8>, start: usize)
    ensures { (before : List ℕ) (fields : List (List ℕ)) → length before ≡ start
        → out.old.items ≡ before ++ tabbed fields → out.new.items ≡ before ++ joined fields }
{
    if out.len() > start {
        let _tab = out.pop();
    }
}
