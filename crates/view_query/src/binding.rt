ghost use Rattle.std.specs.Prelude.{◌≡◌, ◌-◌, ◌^◌, ◌*◌, ◌<◌, ◌==◌, length, min, IfOk};
ghost use Rattle.cube_space.specs.Layout.{axes};
ghost use Rattle.view_query.specs.Meaning.{Answers};
ghost use Rattle.view_query.specs.Binding.{bound, bound_in, is_counted, is_each_once, last_count, with_elements};
ghost use Rattle.view_query.specs.Binding.{within_limit};
ghost use Rattle.view_query.specs.Views.{IsView, cell_count, lines, times_at};

use crate::fault::ViewFault;
use crate::sets::{bind_points, bind_sets, point_places, set_places};
use crate::shape::{Axis, View};
use cube_space::{Space, axis_count};
use rule_model::Model;
use std::alloc::Global;
use user_text::ViewText;

/// The most cells of a view.
const MAX_VIEW_CELLS: u64 = 250_000;

/// What a view of a text is in a model. It is refused for its first fault in this order: the cube isn't there, or a
/// dimension isn't one of the cube's; a dimension of the cube doesn't stand in just one of rows, columns and points; an
/// element isn't there; there are too many cells.
#[tactic(auto, unfolding(crate::specs::Binding::bound))]
pub fn bind(alloc: Global, model: &Model, text: &ViewText) -> Result<View, ViewFault>
    ensures answered { Answers (bound model.now.space text.now) result }
    ensures view { IfOk result (IsView model.now.space) }
{
    let space = model.space();
    match space.cube_of(&text.cube) {
        Some(cube) => bind_in(alloc, space, cube, text),
        None => Err(ViewFault::UnknownName),
    }
}

// The same in this cube.
fn bind_in(alloc: Global, space: &Space, cube: u32, text: &ViewText) -> Result<View, ViewFault>
    requires { cube < length space.now.cubes }
    ensures { Answers (bound_in (axes space.now cube) cube text.now) result }
{
    if is_counted(alloc, space, cube, text)? {
        with_elements(alloc, space, cube, text)
    } else {
        Err(ViewFault::WrongCount)
    }
}

// Whether each dimension of the cube stands in just one of rows, columns and points.
fn is_counted(alloc: Global, space: &Space, cube: u32, text: &ViewText) -> Result<bool, ViewFault>
    requires { cube < length space.now.cubes }
    ensures { Answers (is_counted (axes space.now cube) text.now) result }
{
    let rows = set_places(alloc, space, cube, text.rows.as_slice())?;
    let columns = set_places(alloc, space, cube, text.columns.as_slice())?;
    let points = point_places(alloc, space, cube, text.points.as_slice())?;
    let count = axis_count(space, cube);
    Ok(is_each_once(
        count,
        rows.as_slice(),
        columns.as_slice(),
        points.as_slice(),
    ))
}

// Whether each of so many dimensions stands at just one of these places of rows, columns and points.
fn is_each_once(count: u32, rows: &[u32], columns: &[u32], points: &[u32]) -> bool
    ensures { result ≡ is_each_once count rows.now columns.now points.now }
{
    (0..count).all(|place| is_once(rows, columns, points, place))
}

fn is_once(rows: &[u32], columns: &[u32], points: &[u32], place: u32) -> bool
    ensures { result ≡ (times_at rows.now columns.now points.now place == 1) }
{
    let rows = rows.iter().filter(|other| **other == place).count();
    let columns = columns.iter().filter(|other| **other == place).count();
    let points = points.iter().filter(|other| **other == place).count();
    rows.saturating_add(columns).saturating_add(points) == 1
}

// The view of a text whose dimensions are counted right.
fn with_elements(
    alloc: Global,
    space: &Space,
    cube: u32,
    text: &ViewText,
) -> Result<View, ViewFault>
    requires { cube < length space.now.cubes }
    ensures { Answers (with_elements (axes space.now cube) cube text.now) result }
{
    let rows = bind_sets(alloc, space, cube, text.rows.as_slice())?;
    let columns = bind_sets(alloc, space, cube, text.columns.as_slice())?;
    let points = bind_points(alloc, space, cube, text.points.as_slice())?;
    within_limit(View {
        cube,
        rows,
        columns,
        points,
        nozeros: text.nozeros,
    })
}

// A view, unless it has too many cells.
fn within_limit(view: View) -> Result<View, ViewFault>
    ensures { Answers (within_limit view) result }
{
    let rows = line_count(view.rows.as_slice());
    let cells = rows.saturating_mul(line_count(view.columns.as_slice()));
    if cells > MAX_VIEW_CELLS {
        Err(ViewFault::ViewLimit(cells))
    } else {
        Ok(view)
    }
}

// How many lines there are along axes, or the greatest number where they are more.
fn line_count(axes: &[Axis]) -> u64
    ensures { result ≡ min (length (lines axes.now)) last_count }
{
    let mut count: u64 = 1;
    for axis in axes {
        count = count.saturating_mul(axis.elements.as_slice().len() as u64);
    }
    count
}
