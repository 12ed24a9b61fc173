ghost use Rattle.std.specs.Prelude.{◌≡◌, ◌+◌, ◌<◌, ◌≤◌, ◌^◌, length, slice_index_or, All, IfSome};
ghost use Rattle.dim_core.specs.Outline.{IsWeight, most_components};
ghost use Rattle.cube_fixed.specs.Arithmetic.{zero_value};
ghost use Rattle.cube_space.specs.Cells.{IsCell, elements_of};
ghost use Rattle.rule_laws.specs.RuleSystem.{weighted_sum};
ghost use Rattle.rule_model.specs.Weights.{leaves_below};
ghost use Rattle.rule_model.specs.Targets.{with_element_at, with_components};
ghost use Rattle.rule_dense.specs.Limits.{HasSmallCubes};
ghost use Rattle.rule_dense.specs.Inside.Plain.{table_of, with_leaf};

use crate::place::place_of;
use cube_fixed::{Sum, Value};
use cube_space::{MAX_DIMENSIONS, Space};
use rule_model::{Model, weight};

/// The value that a table has for a cell: 0 past its end.
pub fn value_at(values: &[Value], cell: u64) -> Value
    ensures { result ≡ table_of values.now cell }
{
    match values.get(cell as usize) {
        Some(value) => *value,
        None => Value::ZERO,
    }
}

/// The weighted sum of the leaf cells below a cell.
pub fn sum_below(model: &Model, values: &[Value], cell: u64) -> Value
    requires cell { IsCell model.now.space cell }
    requires small { HasSmallCubes model.now.space }
    ensures { result ≡ weighted_sum (table_of values.now) (leaves_below model.now.space cell) }
{
    let space = model.space();
    let mut at = [0u32; MAX_DIMENSIONS];
    let (cube, _) = place_of(space, cell, &mut at);
    let first = space.first(cube);
    let mut sum = Sum::new();
    for number in 0..space.cells(cube) {
        add_leaf(model, values, cell, first + number, &mut sum);
    }
    sum.value()
}

// Adds the term of one cell, where it is a leaf cell with a weight other than 0.
fn add_leaf(model: &Model, values: &[Value], cell: u64, leaf: u64, sum: &mut Sum)
    requires cell { IsCell model.now.space cell }
    requires leaf { IsCell model.now.space leaf }
    requires room { sum.old.terms < 2 ^ 32 }
    ensures sum { sum.new ≡ with_leaf model.now.space (table_of values.now) cell sum.old leaf }
    ensures terms { sum.new.terms ≤ sum.old.terms + 1 }
{
    if model.space().is_leaf(leaf) {
        let weight = weight(model, cell, leaf);
        if weight != 0 {
            sum.add(weight, value_at(values, leaf));
        }
    }
}

/// The weighted sum over these components of a cell's element, in the dimension at this place.
pub fn sum_of_parts(
    space: &Space,
    values: &[Value],
    cell: u64,
    dim: usize,
    parts: &[(u32, i64)],
) -> Value
    requires cell { IsCell space.now cell }
    requires dim { dim < length (elements_of space.now cell) }
    requires few { length parts.now ≤ most_components }
    requires weights { All (λ part. IsWeight part.1) parts.now }
    ensures { result ≡ weighted_sum (table_of values.now) (with_components space.now cell dim parts.now) }
{
    let mut sum = Sum::new();
    for (part, weight) in parts {
        if let Some(component) = with_element_at(space, cell, dim, *part) {
            sum.add(*weight, value_at(values, component));
        }
    }
    sum.value()
}

/// The cell with another element in the dimension at this place of its cube, or None where there is no such element.
pub fn with_element_at(space: &Space, cell: u64, dim: usize, element: u32) -> Option<u64>
    requires cell { IsCell space.now cell }
    requires dim { dim < length (elements_of space.now cell) }
    ensures value { result ≡ with_element_at space.now cell dim element }
    ensures cell { IfSome result (IsCell space.now) }
{
    let mut at = [0u32; MAX_DIMENSIONS];
    let (cube, dims) = place_of(space, cell, &mut at);
    at[dim] = element;
    space.number(cube, &at[..dims.len()])
}
