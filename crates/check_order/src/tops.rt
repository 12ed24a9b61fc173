ghost use Rattle.std.specs.Prelude.{◌≡◌, ◌<◌, length};
ghost use Rattle.cube_space.specs.Layout.{axes};
ghost use Rattle.rule_model.specs.Conditions.{IsPosition};
ghost use Rattle.rule_model.specs.Order.{positions_for};
ghost use Rattle.check_order.specs.Inside.Tops.{is_taken, has_total, is_at, has_total_elsewhere, which_of};
ghost use Rattle.check_order.specs.Inside.Tops.{greatest_taken, position_top, kind_top};

use cube_space::{Space, axis, axis_count};
use dim_core::Dimension;
use rule_model::{Model, Order, Position};

/// Which elements of a dimension are taken.
#[derive(Clone, Copy)]
pub enum Which {
    All,
    Leaves,
    Totals,
}

fn is_taken(which: Which, dimension: &Dimension, element: u32) -> bool
    requires { element < length dimension.now.elements }
    ensures { result ≡ is_taken which dimension.now element }
{
    match which {
        Which::All => true,
        Which::Leaves => dimension.is_leaf(element),
        Which::Totals => !dimension.is_leaf(element),
    }
}

// Whether a dimension has a consolidated element.
fn has_total(dimension: &Dimension) -> bool
    ensures { result ≡ has_total dimension.now }
{
    'each: for element in 0..dimension.len() {
        if is_taken(Which::Totals, dimension, element) {
            return true;
        }
    }
    false
}

fn is_at(dim: u32, place: Option<u32>) -> bool
    ensures { result ≡ is_at dim place }
{
    match place {
        Some(place) => dim == place,
        None => false,
    }
}

// Whether a dimension of a cube has a consolidated element, other than the dimension at the given place.
fn has_total_elsewhere(space: &Space, cube: u32, place: Option<u32>) -> bool
    requires { cube < length space.now.cubes }
    ensures { result ≡ has_total_elsewhere (axes space.now cube) place }
{
    'each: for dim in 0..axis_count(space, cube) {
        if !is_at(dim, place) && has_total(axis(space, cube, dim)) {
            return true;
        }
    }
    false
}

// The elements that cells of a kind of a cube have in a dimension, `true` for leaf cells. A consolidated cell has any
// element where another dimension has a consolidated one.
fn which_of(space: &Space, cube: u32, kind: bool, dim: u32) -> Which
    requires { cube < length space.now.cubes }
    ensures { result ≡ which_of (axes space.now cube) kind dim }
{
    if kind {
        Which::Leaves
    } else if has_total_elsewhere(space, cube, Some(dim)) {
        Which::All
    } else {
        Which::Totals
    }
}

// The greatest rank of the elements that are taken.
fn greatest_taken(which: Which, dimension: &Dimension, ranks: &[u32]) -> u32
    requires { length ranks.now ≡ length dimension.now.elements }
    ensures { result ≡ greatest_taken which dimension.now ranks.now }
{
    let mut most = 0;
    'each: for element in 0..dimension.len() {
        if is_taken(which, dimension, element) {
            most = ranks[element as usize].max(most);
        }
    }
    most
}

// The greatest number that cells of a kind have at a position, where the cube has cells.
fn position_top(space: &Space, cube: u32, kind: bool, position: &Position) -> u32
    requires cube { cube < length space.now.cubes }
    requires position { IsPosition (axes space.now cube) position.now }
    ensures { result ≡ position_top (axes space.now cube) kind position.now }
{
    match position {
        Position::Constant(number) => {
            if kind || has_total_elsewhere(space, cube, None) {
                *number
            } else {
                0
            }
        }
        Position::Ranks { dim, ranks } => {
            let which = which_of(space, cube, kind, *dim);
            greatest_taken(which, axis(space, cube, *dim), ranks.as_slice())
        }
    }
}

fn positions_for(order: &Order, kind: bool) -> &[Position]
    ensures { result.now ≡ positions_for kind order.now }
{
    match &order.totals {
        Some(totals) if !kind => totals.as_slice(),
        _ => order.positions.as_slice(),
    }
}

/// The greatest number that cells of a kind have at a position, `true` for leaf cells, where the cube has cells.
pub fn kind_top(model: &Model, cube: u32, kind: bool, place: u32) -> u32
    requires { cube < length model.now.space.cubes }
    ensures { result ≡ kind_top model.now place cube kind }
{
    match positions_for(&model.rules(cube).order, kind).get(place as usize) {
        Some(position) => position_top(model.space(), cube, kind, position),
        None => 0,
    }
}
