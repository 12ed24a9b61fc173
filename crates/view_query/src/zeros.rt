ghost use Rattle.std.specs.Prelude.{◌≡◌, ◌||◌, not, IfOk, map};
ghost use Rattle.std.specs.List.{list_any, range_with_len};
ghost use Rattle.cube_fixed.specs.Arithmetic.{is_zero};
ghost use Rattle.view_query.specs.Table.{is_shown};
ghost use Rattle.view_query.specs.Inside.Lines.{is_other_at};

use cube_fixed::Value;
use lists::ListOf;
use std::alloc::{AllocError, Global};

fn is_zero(value: Value) -> bool
    ensures { result ≡ is_zero value }
{
    match value {
        Value::Num(number) => number.millionths() == 0,
        Value::Over => false,
    }
}

fn has_other(values: &[Value]) -> bool
    ensures { result ≡ list_any (λ value. not (is_zero value)) values.now }
{
    values.iter().any(|value| !is_zero(*value))
}

// Whether a row is shown.
fn is_shown(nozeros: bool, values: &[Value]) -> bool
    ensures { result ≡ is_shown nozeros values.now }
{
    !nozeros || has_other(values)
}

/// Which rows are shown.
pub(crate) fn shown_rows(
    alloc: Global,
    nozeros: bool,
    table: &[ListOf<Value>],
) -> Result<Vec<bool>, AllocError>
    ensures { IfOk result (λ shown. shown.items ≡ map (is_shown nozeros) table.now) }
{
    table
        .iter()
        .map(|values| is_shown(nozeros, values.as_slice()))
        .collect(alloc)
}

// Whether a row has a value other than 0 in a column.
fn is_other_at(values: &[Value], column: usize) -> bool
    ensures { result ≡ is_other_at column values.now }
{
    match values.get(column) {
        Some(value) => !is_zero(*value),
        None => false,
    }
}

fn has_other_at(table: &[ListOf<Value>], column: usize) -> bool
    ensures { result ≡ list_any (is_other_at column) table.now }
{
    table
        .iter()
        .any(|values| is_other_at(values.as_slice(), column))
}

fn is_column_shown(nozeros: bool, table: &[ListOf<Value>], column: usize) -> bool
    ensures { result ≡ (not nozeros || list_any (is_other_at column) table.now) }
{
    !nozeros || has_other_at(table, column)
}

/// Which of so many columns are shown.
pub(crate) fn shown_columns(
    alloc: Global,
    nozeros: bool,
    table: &[ListOf<Value>],
    count: usize,
) -> Result<Vec<bool>, AllocError>
    ensures { IfOk result (λ shown. shown.items
        ≡ map (λ column. not nozeros || list_any (is_other_at column) table.now) (range_with_len 0 count)) }
{
    (0..count)
        .map(|column| is_column_shown(nozeros, table, column))
        .collect(alloc)
}
