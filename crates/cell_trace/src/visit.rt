ghost use Rattle.std.specs.Prelude.{◌≡◌, ◌++◌, ◌<◌, ◌^◌, [], ◌∷◌, None, Some, length, IfOk, OnOk, if◌then◌else◌};
ghost use Rattle.cell_trace.specs.Inside.Place.{given_at, has_components_at, named_at, own_at, target_at};
ghost use Rattle.cube_fixed.specs.declared.value.Value.TheVariants.{Num};
ghost use Rattle.rule_laws.specs.Tables.{number_of};
ghost use Rattle.cell_trace.specs.Inside.Sums.{IsReady};
ghost use Rattle.cell_trace.specs.Visits.{Given, passed, test, visit};
ghost use Rattle.cell_trace.specs.declared.item.Item.TheVariants.{Children, Own, Read};
ghost use Rattle.rule_laws.specs.Meaning.{precedents, truth_precedents};

use crate::here::Here;
use crate::item::Item;
use crate::known::{Known, children, stet};
use crate::references::{references, truth_references};
use cell_reader::Snapshot;
use cube_fixed::Value;
use rule_laws::{ElementTable, Formula, Reference, Truth};
use std::alloc::AllocError;

// Passes over so many references.
fn pass(references: u32, items: &mut Vec<Option<Item>>) -> Result<(), AllocError>
    ensures { OnOk result (items.new.items ≡ items.old.items ++ passed references) }
{
    for _ in 0..references {
        items.push(None)?;
    }
    Ok(())
}

// What a reference gives.
#[tactic(auto, unfolding(crate::specs::Inside::Place::named_at))]
fn named(
    here: &Here,
    reference: &Reference,
    known: &Known,
    reader: &mut Snapshot,
    items: &mut Vec<Option<Item>>,
) -> Result<Value, AllocError>
    requires { IsReady here.now known.now reader.old }
    ensures value { IfOk result (λ value. value ≡ named_at here.now reference.now) }
    ensures items { OnOk result
        (items.new.items ≡ items.old.items ++ Some (Read (target_at here.now reference.now)) ∷ []) }
    ensures ready { IsReady here.now known.now reader.new }
{
    let target = here.target(reference);
    items.push(Some(Item::Read(target)))?;
    match target {
        Some(cell) => here.value(cell, reader),
        None => Ok(Value::ZERO),
    }
}

// What a table has for the cell.
fn table_number(here: &Here, dim: u32, table: &ElementTable) -> Value
    ensures { result ≡ Num (number_of table.now (own_at here.now dim)) }
{
    Value::Num(table.get(here.own(dim) as usize))
}

// Reaches `ConsolidateChildren` in a dimension.
fn reach_children(here: &Here, dim: u32, items: &mut Vec<Option<Item>>) -> Result<(), AllocError>
    ensures { OnOk result (items.new.items ≡ items.old.items
        ++ (if has_components_at here.now dim then Some (Children dim) ∷ [] else None ∷ Some Own ∷ [])) }
{
    if here.has_components(dim) {
        items.push(Some(Item::Children(dim)))?;
    } else {
        items.push(None)?;
        items.push(Some(Item::Own))?;
    }
    Ok(())
}

// Passes over a formula, and over a condition.
fn pass_formula(formula: &Formula, items: &mut Vec<Option<Item>>) -> Result<(), AllocError>
    requires { length (precedents formula.now) < 2 ^ 32 }
    ensures { (given : Given)
        → OnOk result (items.new.items ≡ items.old.items ++ passed (visit given formula.now).references) }
{
    pass(references(formula), items)
}

fn pass_truth(truth: &Truth, items: &mut Vec<Option<Item>>) -> Result<(), AllocError>
    requires { length (truth_precedents truth.now) < 2 ^ 32 }
    ensures { (given : Given)
        → OnOk result (items.new.items ≡ items.old.items ++ passed (test given truth.now).references) }
{
    pass(truth_references(truth), items)
}

/// What a formula gives, where the statements after it give `rest`. What evaluation reaches is put behind `items`.
#[cycle(visit)]
pub(crate) fn visit(
    here: &Here,
    rest: &Value,
    formula: &Formula,
    known: &mut Known,
    reader: &mut Snapshot,
    items: &mut Vec<Option<Item>>,
) -> Result<Value, AllocError>
    requires few { length (precedents formula.now) < 2 ^ 32 }
    requires ready { IsReady here.now known.old reader.old }
    ensures value { IfOk result (λ value. value ≡ (visit (given_at here.now rest.now) formula.now).value) }
    ensures items { OnOk result
        (items.new.items ≡ items.old.items ++ (visit (given_at here.now rest.now) formula.now).items) }
    ensures ready { IsReady here.now known.new reader.new }
{
    match formula {
        Formula::Number(number) => Ok(Value::Num(*number)),
        Formula::Stet => {
            items.push(Some(Item::Own))?;
            stet(here, known, reader)
        }
        Formula::Continue => {
            items.push(Some(Item::Rest))?;
            Ok(*rest)
        }
        Formula::Children(dim) => {
            reach_children(here, *dim, items)?;
            children(here, *dim, known, reader)
        }
        Formula::Ref(reference) => named(here, reference, known, reader, items),
        Formula::Table(dim, table) => Ok(table_number(here, *dim, table)),
        Formula::Binary(op, left, right) => {
            let left = visit(here, rest, left.get(), known, reader, items)?;
            let right = visit(here, rest, right.get(), known, reader, items)?;
            Ok(op.apply(left, right))
        }
        Formula::Unary(fun, inner) => {
            let inner = visit(here, rest, inner.get(), known, reader, items)?;
            Ok(fun.apply(inner))
        }
        Formula::If(truth, left, right) => {
            if holds(here, rest, truth.get(), known, reader, items)? {
                let value = visit(here, rest, left.get(), known, reader, items)?;
                pass_formula(right.get(), items)?;
                Ok(value)
            } else {
                pass_formula(left.get(), items)?;
                visit(here, rest, right.get(), known, reader, items)
            }
        }
    }
}

/// Whether a condition holds, in the same way.
#[cycle(visit)]
fn holds(
    here: &Here,
    rest: &Value,
    truth: &Truth,
    known: &mut Known,
    reader: &mut Snapshot,
    items: &mut Vec<Option<Item>>,
) -> Result<bool, AllocError>
    requires few { length (truth_precedents truth.now) < 2 ^ 32 }
    requires ready { IsReady here.now known.old reader.old }
    ensures holds { IfOk result (λ holds. holds ≡ (test (given_at here.now rest.now) truth.now).holds) }
    ensures items { OnOk result
        (items.new.items ≡ items.old.items ++ (test (given_at here.now rest.now) truth.now).items) }
    ensures ready { IsReady here.now known.new reader.new }
{
    match truth {
        Truth::Compare(rel, left, right) => {
            let left = visit(here, rest, left, known, reader, items)?;
            let right = visit(here, rest, right, known, reader, items)?;
            Ok(rel.holds(left, right))
        }
        Truth::And(left, right) => {
            if holds(here, rest, left.get(), known, reader, items)? {
                holds(here, rest, right.get(), known, reader, items)
            } else {
                pass_truth(right.get(), items)?;
                Ok(false)
            }
        }
        Truth::Or(left, right) => {
            if holds(here, rest, left.get(), known, reader, items)? {
                pass_truth(right.get(), items)?;
                Ok(true)
            } else {
                holds(here, rest, right.get(), known, reader, items)
            }
        }
        Truth::Not(inner) => {
            let inner = holds(here, rest, inner.get(), known, reader, items)?;
            Ok(!inner)
        }
    }
}
