ghost use Rattle.std.specs.Prelude.{◌≡◌, ℕ, IfOk, OnOk, IsTrue, count_by, fold};
ghost use Rattle.cube_space.specs.Cells.{size_of};
ghost use Rattle.view_query.specs.Views.{IsView, cell_at, table_cells};
ghost use Rattle.cube_fixed.specs.declared.value.Value.{Value as ValueOf};
ghost use Rattle.view_query.specs.Inside.Grids.{IsGridOf};
ghost use Rattle.view_query.specs.Inside.Lines.{shows_nothing};
ghost use Rattle.view_query.specs.Table.{table_text};

use crate::grid::Grid;
use crate::lines::{has_empty, lines};
use crate::reading::all_values;
use crate::shape::View;
use crate::written::{write_heads, write_rows, write_title};
use crate::zeros::{shown_columns, shown_rows};
use cell_source::Cells;
use cube_space::Space;
use std::alloc::{AllocError, Global};

/// The table of a view: `table R C` and its lines, without the end of the last one. Each of its cells is asked for
/// once, row by row.
pub fn view<C: Cells>(
    alloc: Global,
    space: &Space,
    view: &View,
    cells: &mut C,
) -> Result<Vec<u8>, AllocError>
    requires view { IsView space.now view.now }
    requires cells { C.size cells.old ≡ size_of space.now }
    ensures text { IfOk result (λ text. text.items ≡ table_text space.now view.now (C.values cells.old)) }
    ensures asked { OnOk result (C.asked cells.new
        ≡ fold C.after_asking (C.asked cells.old) (table_cells space.now view.now)) }
    ensures values { C.values cells.new ≡ C.values cells.old }
    ensures size { C.size cells.new ≡ C.size cells.old }
{
    if shows_nothing(view) {
        return empty_text(alloc, space, view);
    }
    let grid = grid_of(alloc, space, view, cells)?;
    let mut text = Vec::new(alloc);
    write_title(
        alloc,
        shown_count(&grid.rows_shown),
        shown_count(&grid.columns_shown),
        &mut text,
    )?;
    write_heads(space, view, &grid, &mut text)?;
    write_rows(alloc, space, view, &grid, &mut text)?;
    Ok(text)
}

// How many of these are shown.
fn shown_count(shown: &[bool]) -> usize
    ensures { result ≡ count_by (λ is_shown. is_shown) shown.now }
{
    shown.iter().filter(|is_shown| **is_shown).count()
}

// Whether no line is left: zeros are left out, and there is no cell. There may still be more lines than there is memory
// for.
fn shows_nothing(view: &View) -> bool
    ensures { result ≡ shows_nothing view.now }
{
    view.nozeros && (has_empty(view.rows.as_slice()) || has_empty(view.columns.as_slice()))
}

// The text of a table of which no line is left.
fn empty_text(alloc: Global, space: &Space, view: &View) -> Result<Vec<u8>, AllocError>
    requires view { IsView space.now view.now }
    requires nothing { IsTrue (shows_nothing view.now) }
    ensures { IfOk result (λ text. (values : ℕ → ValueOf) → text.items ≡ table_text space.now view.now values) }
{
    let grid = Grid {
        rows: Vec::new(alloc),
        columns: Vec::new(alloc),
        values: Vec::new(alloc),
        rows_shown: Vec::new(alloc),
        columns_shown: Vec::new(alloc),
    };
    let mut text = Vec::new(alloc);
    write_title(alloc, 0, 0, &mut text)?;
    write_heads(space, view, &grid, &mut text)?;
    Ok(text)
}

// The lines of a view with their values.
fn grid_of<C: Cells>(
    alloc: Global,
    space: &Space,
    view: &View,
    cells: &mut C,
) -> Result<Grid, AllocError>
    requires view { IsView space.now view.now }
    requires cells { C.size cells.old ≡ size_of space.now }
    ensures grid { IfOk result (λ grid. IsGridOf space.now view.now
        (λ row column. C.values cells.old (cell_at space.now view.now row column)) grid) }
    ensures asked { OnOk result (C.asked cells.new
        ≡ fold C.after_asking (C.asked cells.old) (table_cells space.now view.now)) }
    ensures values { C.values cells.new ≡ C.values cells.old }
    ensures size { C.size cells.new ≡ C.size cells.old }
{
    let rows = lines(alloc, view.rows.as_slice())?;
    let columns = lines(alloc, view.columns.as_slice())?;
    let values = all_values(alloc, space, view, &rows, &columns, cells)?;
    let rows_shown = shown_rows(alloc, view.nozeros, &values)?;
    let columns_shown = shown_columns(alloc, view.nozeros, &values, columns.len())?;
    Ok(Grid {
        rows,
        columns,
        values,
        rows_shown,
        columns_shown,
    })
}
