ghost use Rattle.std.specs.Prelude.{◌≡◌, ◌<◌, ◌++◌, ◌∷◌, [], false, OnOk, Some, codes, decimal, length, replicate};
ghost use Rattle.std.specs.Prelude.{slice_get, slice_index_or};
ghost use Rattle.std.specs.List.{items_where_true};
ghost use Rattle.cube_space.specs.Layout.{axes};
ghost use Rattle.view_query.specs.declared.shape.Axis.{Axis as AxisValue};
ghost use Rattle.view_query.specs.Table.{head_line, row_line};
ghost use Rattle.view_query.specs.Inside.Lines.{IsLine};
ghost use Rattle.view_query.specs.Inside.Tables.{IsTableOf};
ghost use Rattle.view_query.specs.Inside.Text.{heads, line_if, row_lines, tabbed};

use crate::fields::{end_line, write_names, write_names_across, write_values};
use crate::grid::Grid;
use crate::shape::View;
use cube_fixed::Value;
use cube_space::Space;
use std::alloc::{AllocError, Global};

/// Writes `table R C`.
pub(crate) fn write_title(
    alloc: Global,
    rows: usize,
    columns: usize,
    out: &mut Vec<u8>,
) -> Result<(), AllocError>
    ensures { OnOk result (out.new.items
        ≡ out.old.items ++ (codes "table " ++ decimal rows ++ codes " " ++ decimal columns)) }
{
    let title = format!(in alloc; "table {rows} {columns}")?;
    out.extend_from_slice(title.as_bytes())
}

// Writes so many empty fields.
fn write_empty(count: usize, out: &mut Vec<u8>) -> Result<(), AllocError>
    ensures { OnOk result (out.new.items ≡ out.old.items ++ tabbed (replicate count [])) }
{
    for _ in 0..count {
        out.push(b'\t')?;
    }
    Ok(())
}

// Writes the head line of the axis of the columns at an index.
fn write_head(
    space: &Space,
    view: &View,
    grid: &Grid,
    index: usize,
    out: &mut Vec<u8>,
) -> Result<(), AllocError>
    requires cube { view.now.cube < length space.now.cubes }
    requires grid { IsTableOf (axes space.now view.now.cube) view.now grid.now }
    requires index { index < length view.now.columns }
    ensures { OnOk result ((across : AxisValue) → slice_get view.now.columns index ≡ Some across
        → out.new.items ≡ out.old.items ++ 10 ∷ head_line space.now view.now
        (items_where_true grid.now.columns_shown.items grid.now.columns.items) (index, across)) }
{
    out.push(b'\n')?;
    let start = out.len();
    write_empty(view.rows.as_slice().len(), out)?;
    let along = view.columns.as_slice();
    write_names_across(
        space,
        view.cube,
        along,
        index,
        &grid.columns,
        &grid.columns_shown,
        out,
    )?;
    end_line(out, start);
    Ok(())
}

/// Writes the head lines, one for each axis of the columns.
pub(crate) fn write_heads(
    space: &Space,
    view: &View,
    grid: &Grid,
    out: &mut Vec<u8>,
) -> Result<(), AllocError>
    requires cube { view.now.cube < length space.now.cubes }
    requires grid { IsTableOf (axes space.now view.now.cube) view.now grid.now }
    ensures { OnOk result (out.new.items
        ≡ out.old.items ++ heads space.now view.now grid.now.columns.items grid.now.columns_shown.items) }
{
    for index in 0..view.columns.as_slice().len() {
        write_head(space, view, grid, index, out)?;
    }
    Ok(())
}

// Writes the line of a row.
fn write_row(
    alloc: Global,
    space: &Space,
    view: &View,
    row: &[u32],
    values: &[Value],
    shown: &[bool],
    out: &mut Vec<u8>,
) -> Result<(), AllocError>
    requires cube { view.now.cube < length space.now.cubes }
    requires row { IsLine (axes space.now view.now.cube) view.now.rows row.now }
    requires shown { length shown.now ≡ length values.now }
    ensures { OnOk result (out.new.items ≡ out.old.items
        ++ 10 ∷ row_line space.now view.now row.now (items_where_true shown.now values.now)) }
{
    out.push(b'\n')?;
    let start = out.len();
    write_names(space, view.cube, view.rows.as_slice(), row, out)?;
    write_values(alloc, values, shown, out)?;
    end_line(out, start);
    Ok(())
}

// Writes the line of the row at a place, if it's shown.
fn write_row_at(
    alloc: Global,
    space: &Space,
    view: &View,
    grid: &Grid,
    place: usize,
    out: &mut Vec<u8>,
) -> Result<(), AllocError>
    requires cube { view.now.cube < length space.now.cubes }
    requires grid { IsTableOf (axes space.now view.now.cube) view.now grid.now }
    requires place { place < length grid.now.rows.items }
    ensures { OnOk result (out.new.items ≡ out.old.items ++ line_if space.now view.now
        grid.now.columns_shown.items (slice_index_or grid.now.rows.items place [])
        (slice_index_or grid.now.values.items place []) (slice_index_or grid.now.rows_shown.items place false)) }
{
    if grid.rows_shown[place] {
        let row = grid.rows[place].as_slice();
        let values = grid.values[place].as_slice();
        write_row(alloc, space, view, row, values, &grid.columns_shown, out)?;
    }
    Ok(())
}

/// Writes the lines of the rows that are shown.
pub(crate) fn write_rows(
    alloc: Global,
    space: &Space,
    view: &View,
    grid: &Grid,
    out: &mut Vec<u8>,
) -> Result<(), AllocError>
    requires cube { view.now.cube < length space.now.cubes }
    requires grid { IsTableOf (axes space.now view.now.cube) view.now grid.now }
    ensures { OnOk result (out.new.items ≡ out.old.items ++ row_lines space.now view.now grid.now.rows.items
        grid.now.values.items grid.now.rows_shown.items grid.now.columns_shown.items) }
{
    for place in 0..grid.rows.len() {
        write_row_at(alloc, space, view, grid, place, out)?;
    }
    Ok(())
}
