ghost use Rattle.std.specs.Prelude.{◌≡◌, ◌<◌, IfOk, IsSome, drop};
ghost use Rattle.cube_space.specs.Cells.{IsCell};
ghost use Rattle.rule_laws.specs.RuleSystem.{dense_value, right_side};
ghost use Rattle.rule_laws.specs.OrderByPlace.{IsOrderedByPlace};
ghost use Rattle.rule_model.specs.System.{system_of, positions_of};
ghost use Rattle.rule_model.specs.Governing.{rules_for, formula_at};
ghost use Rattle.rule_evaluate.specs.Readings.{statements_value};
ghost use Rattle.stored_laws.specs.Stored.{stored_in};
ghost use Rattle.rule_dense.specs.Limits.{IsLow, HasSmallCubes};
ghost use Rattle.rule_dense.specs.Inside.Plain.{table_of, plain_readings};
ghost use Rattle.rule_dense.specs.Inside.Depths.{AreDense};

use crate::depth::by_depth;
use crate::plain::Plain;
use crate::sums::value_at;
use cell_store::Store;
use cube_fixed::{Steps, Value};
use rule_evaluate::evaluate;
use rule_model::{Model, governing};
use std::alloc::{AllocError, Global};
use std::marker::Brand;
use std::sync::ledger::{Blank, Ledger};

/// The most cells of a cube for plain evaluation.
pub const MAX_CUBE_CELLS: u64 = 1_000_000;

/// The value of a cell, over what is stored: a table is filled with the values of all cells of the model, each when
/// those that it reads are known. The rules are ordered, the height of the order is within its limit, and no cube has
/// more than [`MAX_CUBE_CELLS`] cells. It fails only when out of memory.
///
/// The time grows with the square of a cube's cells, since a total looks at each cell of its cube.
pub fn dense(alloc: Global, model: &Model, store: &Store, cell: u64) -> Result<Value, AllocError>
    requires cell { IsCell model.now.space cell }
    requires ordered { IsOrderedByPlace (system_of model.now) (positions_of model.now) }
    requires low { IsLow model.now }
    requires small { HasSmallCubes model.now.space }
    ensures value { IfOk result (λ v. v ≡ dense_value (system_of model.now) (stored_in store.now) cell) }
{
    let values = all_values(alloc, model, store)?;
    Ok(value_at(&values, cell))
}

// The values of all cells. Each is evaluated when those that it reads are known.
fn all_values(alloc: Global, model: &Model, store: &Store) -> Result<Vec<Value>, AllocError>
    requires ordered { IsOrderedByPlace (system_of model.now) (positions_of model.now) }
    requires low { IsLow model.now }
    requires small { HasSmallCubes model.now.space }
    ensures { IfOk result (λ values. AreDense model.now (stored_in store.now) values.items) }
{
    let cells = by_depth(alloc, model)?;
    let mut values = vec![in alloc; Value::ZERO; model.space().size() as usize]?;
    for (_, cell) in &cells {
        values[*cell as usize] = right_side(model, store, &values, *cell);
    }
    Ok(values)
}

// The right side of a cell's equation, by the values so far.
fn right_side(model: &Model, store: &Store, values: &[Value], cell: u64) -> Value
    requires cell { IsCell model.now.space cell }
    requires small { HasSmallCubes model.now.space }
    ensures { result ≡ right_side (system_of model.now) (stored_in store.now) (table_of values.now) cell }
{
    let plain = Plain::new(model, store, values);
    match governing(model, cell) {
        Some(statement) => {
            statement_value::<Brand>(Blank::new(1), model, statement, cell, &plain)
        }
        None => plain.base_of(cell),
    }
}

// What a statement that has a part for a cell gives it. Nobody counts the steps.
fn statement_value<L: Ledger>(
    blank: Blank,
    model: &Model,
    statement: u32,
    cell: u64,
    plain: &Plain,
) -> Value
    requires name { blank.name ≡ L.name }
    requires parts { blank.parts ≡ L.parts }
    requires some { 0 < L.parts }
    requires cell { IsCell model.now.space cell }
    requires own { plain.now.model ≡ model.now }
    requires part { IsSome (formula_at model.now cell statement) }
    ensures { result ≡ statements_value (system_of model.now) (plain_readings plain.now) cell
        (drop statement (rules_for model.now cell)) }
{
    let mut steps = Steps::<L>::begin(blank);
    match evaluate(model, statement, cell, plain, &mut (), &mut steps) {
        Ok(value) => value,
        Err(never) => match never {},
    }
}
