ghost use Rattle.std.specs.Prelude.{◌≡◌, ◌<◌, length, IsSome, Some};
ghost use Rattle.cube_space.specs.Cells.{IsCell, cube_of};
ghost use Rattle.rule_laws.specs.OrderByPlace.{IsOrderedByPlace};
ghost use Rattle.rule_model.specs.BoundModel.{rules_of};
ghost use Rattle.rule_model.specs.Governing.{formula_at, governing_from};
ghost use Rattle.rule_model.specs.System.{system_of, positions_of};
ghost use Rattle.rule_dense.specs.Limits.{IsLow, HasSmallCubes};

use crate::refusal::Refusal;
use crate::values::value_text;
use cell_store::Store;
use cube_fixed::{Steps, Value};
use cube_space::MAX_DIMENSIONS;
use rule_dense::dense;
use rule_evaluate::{Ask, Given, evaluate, only_what_formulas_read_is_asked};
use rule_model::{Formula, Model, governing, governing_after, part_of, place_of, target};
use std::alloc::Global;
use std::marker::Brand;
use std::sync::ledger::{Blank, Ledger};

/// The most statements and the most questions that are printed.
const MAX_TOLD: u32 = 1_000;

/// Adds how a cell is evaluated: the statements that have a part for it, one after the other; the cell that the first
/// names, where its formula is one reference; and the questions of an evaluation that begins again with each answer,
/// and what it gives. Sums over components are not answered.
pub fn add_course(
    alloc: Global,
    model: &Model,
    store: &Store,
    cell: u64,
    told: &mut String,
) -> Result<(), Refusal>
    requires cell { IsCell model.now.space cell }
    requires ordered { IsOrderedByPlace (system_of model.now) (positions_of model.now) }
    requires low { IsLow model.now }
    requires small { HasSmallCubes model.now.space }
{
    let Some(statement) = governing(model, cell) else {
        return Ok(told.push_str(", no statement")?);
    };
    add_statements(alloc, model, cell, statement, told)?;
    let Some(part) = part_at(model, cell, statement) else {
        return Ok(());
    };
    add_target(alloc, model, cell, part, told)?;
    add_questions::<Brand>(Blank::new(1), alloc, model, store, cell, statement, told)
}

// The statements from one on, by their numbers: `, statements 1 3`.
fn add_statements(
    alloc: Global,
    model: &Model,
    cell: u64,
    first: u32,
    told: &mut String,
) -> Result<(), Refusal>
    requires { IsCell model.now.space cell }
{
    told.push_str(", statements")?;
    let mut next = Some(first);
    for _ in 0..MAX_TOLD {
        let Some(place) = next else {
            return Ok(());
        };
        let number = u64::from(place) + 1;
        let piece = format!(in alloc; " {number}")?;
        told.push_str(&piece)?;
        next = governing_after(model, cell, place);
    }
    Ok(())
}

// The formula that the statement which governs a cell has for it.
fn part_at(model: &Model, cell: u64, statement: u32) -> Option<&Formula>
    requires cell { IsCell model.now.space cell }
    requires governs { governing_from model.now cell 0 ≡ Some statement }
    requires there { statement < length (rules_of model.now (cube_of model.now.space cell)).statements }
    ensures { IsSome (formula_at model.now cell statement) }
{
    let mut at = [0u32; MAX_DIMENSIONS];
    let (cube, _) = place_of(model, cell, &mut at);
    part_of(model, cube, statement, model.space().is_leaf(cell))
}

// `, names cell 4`, where a formula is one reference.
fn add_target(
    alloc: Global,
    model: &Model,
    cell: u64,
    formula: &Formula,
    told: &mut String,
) -> Result<(), Refusal>
    requires { IsCell model.now.space cell }
{
    let Formula::Ref(reference) = formula else {
        return Ok(());
    };
    match target(model, reference, cell) {
        Some(named) => {
            let piece = format!(in alloc; ", names cell {named}")?;
            Ok(told.push_str(&piece)?)
        }
        None => Ok(told.push_str(", names no cell")?),
    }
}

// The questions, and what the evaluation gives: `, asks Value(4), gives 2`.
fn add_questions<L: Ledger>(
    blank: Blank,
    alloc: Global,
    model: &Model,
    store: &Store,
    cell: u64,
    statement: u32,
    told: &mut String,
) -> Result<(), Refusal>
    requires name { blank.name ≡ L.name }
    requires parts { blank.parts ≡ L.parts }
    requires some { 0 < L.parts }
    requires cell { IsCell model.now.space cell }
    requires part { IsSome (formula_at model.now cell statement) }
    requires ordered { IsOrderedByPlace (system_of model.now) (positions_of model.now) }
    requires low { IsLow model.now }
    requires small { HasSmallCubes model.now.space }
{
    let mut steps = Steps::<L>::begin(blank);
    let mut known = Vec::new(alloc);
    for _ in 0..MAX_TOLD {
        match by_answers(model, statement, cell, &known, &mut steps) {
            Ok(value) => {
                let text = value_text(alloc, value)?;
                told.push_str(", gives ")?;
                return Ok(told.push_str(&text)?);
            }
            Err(question) => {
                let piece = format!(in alloc; ", asks {question:?}")?;
                told.push_str(&piece)?;
                let Some(answer) = answer_to(alloc, model, store, question)? else {
                    return Ok(());
                };
                known.push((question, answer))?;
            }
        }
    }
    Ok(())
}

// What the statement gives by these answers, or the first question that they leave open.
fn by_answers<L: Ledger>(
    model: &Model,
    statement: u32,
    cell: u64,
    known: &[(Ask, Value)],
    steps: &mut Steps<L>,
) -> Result<Value, Ask>
    requires cell { IsCell model.now.space cell }
    requires part { IsSome (formula_at model.now cell statement) }
{
    only_what_formulas_read_is_asked();
    let given = Given::new(known);
    evaluate(model, statement, cell, &given, &mut (), steps)
}

// The answer to a question, where it asks for the value of a cell, or for what is stored in a leaf cell.
fn answer_to(
    alloc: Global,
    model: &Model,
    store: &Store,
    question: Ask,
) -> Result<Option<Value>, Refusal>
    requires ordered { IsOrderedByPlace (system_of model.now) (positions_of model.now) }
    requires low { IsLow model.now }
    requires small { HasSmallCubes model.now.space }
{
    match question {
        Ask::Value(cell) => {
            if cell < model.space().size() {
                return Ok(Some(dense(alloc, model, store, cell)?));
            }
            Ok(None)
        }
        Ask::Base(cell) => {
            if cell < model.space().size() && model.space().is_leaf(cell) {
                return Ok(Some(Value::Num(store.get(cell))));
            }
            Ok(None)
        }
        Ask::Children(_, _) => Ok(None),
    }
}
