ghost use Rattle.std.specs.Prelude.{◌≡◌, ◌<◌, ◌≤◌, All, IfOk, OnOk, Some, fold, length, map, take};
ghost use Rattle.std.specs.List.{flat_map, range_with_len};
ghost use Rattle.cube_space.specs.Layout.{axes, most_dimensions};
ghost use Rattle.cube_space.specs.Cells.{size_of};
ghost use Rattle.view_query.specs.Views.{IsView, cell_at, element_at, element_in, elements_at, point_at};
ghost use Rattle.view_query.specs.Inside.Lines.{IsLine};

use crate::shape::{Axis, View};
use cell_source::Cells;
use cube_fixed::Value;
use cube_space::{MAX_DIMENSIONS, Space, axis_count};
use lists::ListOf;
use std::alloc::{AllocError, Global};

// The element that a line has at a place of the cube.
fn element_in(axes: &[Axis], line: &[u32], place: u32) -> Option<u32>
    ensures { result ≡ element_in axes.now line.now place }
{
    for index in 0..axes.len() {
        if axes[index].place == place {
            return line.get(index).copied();
        }
    }
    None
}

fn point_at(points: &[(u32, u32)], place: u32) -> Option<u32>
    ensures { result ≡ point_at points.now place }
{
    points
        .iter()
        .find(|point| point.0 == place)
        .map(|point| point.1)
}

// The element that the cell of a row and a column has at a place.
fn element_at(view: &View, row: &[u32], column: &[u32], place: u32) -> u32
    ensures { result ≡ element_at view.now row.now column.now place }
{
    let of_column = element_in(view.columns.as_slice(), column, place);
    element_in(view.rows.as_slice(), row, place)
        .or(of_column.or(point_at(view.points.as_slice(), place)))
        .unwrap_or(0)
}

// Puts the elements of the cell of a row and a column into the first places.
fn put_elements(
    view: &View,
    row: &[u32],
    column: &[u32],
    count: usize,
    at: &mut [u32; MAX_DIMENSIONS],
)
    requires { count ≤ most_dimensions }
    ensures { take count at.new ≡ map (element_at view.now row.now column.now) (range_with_len 0 count) }
{
    for place in 0..count {
        at[place] = element_at(view, row, column, place as u32);
    }
}

// The cell of a row and a column.
#[tactic(auto, unfolding(crate::specs::Views::cell_at))]
fn cell_at(space: &Space, view: &View, row: &[u32], column: &[u32]) -> u64
    requires view { IsView space.now view.now }
    requires row { IsLine (axes space.now view.now.cube) view.now.rows row.now }
    requires column { IsLine (axes space.now view.now.cube) view.now.columns column.now }
    ensures value { result ≡ cell_at space.now view.now row.now column.now }
    ensures cell { result < size_of space.now }
{
    let count = axis_count(space, view.cube) as usize;
    let mut at = [0; MAX_DIMENSIONS];
    put_elements(view, row, column, count, &mut at);
    space.number(view.cube, &at[..count]).unwrap()
}

/// The values of a row, each asked for once, in the order of the columns.
pub(crate) fn row_values<C: Cells>(
    alloc: Global,
    space: &Space,
    view: &View,
    row: &[u32],
    columns: &[ListOf<u32>],
    cells: &mut C,
) -> Result<ListOf<Value>, AllocError>
    requires view { IsView space.now view.now }
    requires row { IsLine (axes space.now view.now.cube) view.now.rows row.now }
    requires columns { All (IsLine (axes space.now view.now.cube) view.now.columns) columns.now }
    requires cells { C.size cells.old ≡ size_of space.now }
    ensures row { IfOk result (λ row_values. row_values
        ≡ map (λ column. C.values cells.old (cell_at space.now view.now row.now column)) columns.now) }
    ensures asked { OnOk result (C.asked cells.new
        ≡ fold C.after_asking (C.asked cells.old) (map (cell_at space.now view.now row.now) columns.now)) }
    ensures values { C.values cells.new ≡ C.values cells.old }
    ensures size { C.size cells.new ≡ C.size cells.old }
{
    let mut values = Vec::with_capacity(alloc, columns.len())?;
    for column in columns {
        let cell = cell_at(space, view, row, column.as_slice());
        values.push(cells.value(alloc, cell)?)?;
    }
    Ok(ListOf::new(values))
}

/// The values of all rows, each asked for once, row by row.
pub(crate) fn all_values<C: Cells>(
    alloc: Global,
    space: &Space,
    view: &View,
    rows: &[ListOf<u32>],
    columns: &[ListOf<u32>],
    cells: &mut C,
) -> Result<Vec<ListOf<Value>>, AllocError>
    requires view { IsView space.now view.now }
    requires rows { All (IsLine (axes space.now view.now.cube) view.now.rows) rows.now }
    requires columns { All (IsLine (axes space.now view.now.cube) view.now.columns) columns.now }
    requires cells { C.size cells.old ≡ size_of space.now }
    ensures table { IfOk result (λ table. table.items ≡ map (λ row.
        map (λ column. C.values cells.old (cell_at space.now view.now row column)) columns.now) rows.now) }
    ensures asked { OnOk result (C.asked cells.new ≡ fold C.after_asking (C.asked cells.old)
        (flat_map (λ row. map (cell_at space.now view.now row) columns.now) rows.now)) }
    ensures values { C.values cells.new ≡ C.values cells.old }
    ensures size { C.size cells.new ≡ C.size cells.old }
{
    let mut all = Vec::with_capacity(alloc, rows.len())?;
    for row in rows {
        all.push(row_values(alloc, space, view, row.as_slice(), columns, cells)?)?;
    }
    Ok(all)
}
