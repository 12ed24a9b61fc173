ghost use Rattle.std.specs.Prelude.{◌≡◌, ◌<◌, ◌++◌, Some, IfOk, IfSome, IsTrue, OnOk, length, slice_get, slice_index_or};
ghost use Rattle.cube_space.specs.Layout.{cube_names};
ghost use Rattle.feed_find.specs.Views.{IsChoice};
ghost use Rattle.operand_cover.specs.Cover as cover;
ghost use Rattle.rule_model.specs.BoundModel.{rules_of};
ghost use Rattle.rule_model.specs.Conditions.{IsFeeder, IsReference, IsStatement};
ghost use Rattle.rule_printer.specs.Writable.{is_writable_feeder};

use crate::operands::operand_at;
use cell_names::write_quoted_name;
use cube_space::Space;
use feed_find::{Asked, Choice, Kept, choose};
use feed_print::text_of;
use rule_laws::Reference;
use rule_model::{Feeder, Model, Statement};
use rule_printer::write_each_feeder;
use rule_tree::FeederText;
use std::alloc::{AllocError, Global};

// Adds what a feeder of this cube is as text.
fn push_text(
    alloc: Global,
    lines: &mut Vec<u8>,
    name: &[u8],
    text: FeederText,
) -> Result<(), AllocError>
    requires { IsTrue (is_writable_feeder text) }
    ensures { OnOk result (cover.AddsFeeder name.now text lines.old.items lines.new.items) }
{
    lines.extend_from_slice(b"  feeder of ")?;
    write_quoted_name(name, lines)?;
    lines.extend_from_slice(b": ")?;
    let mut feeders = Vec::new(alloc);
    feeders.push(text)?;
    write_each_feeder(alloc, lines, &feeders)
}

// Adds the line of the feeder that would cover a reference.
fn push_feeder(
    alloc: Global,
    lines: &mut Vec<u8>,
    space: &Space,
    cube: u32,
    feeder: &Feeder,
) -> Result<(), AllocError>
    requires cube { cube < length space.now.cubes }
    requires feeder { IsFeeder space.now cube feeder.now }
    ensures { OnOk result (cover.AddsFeederOf space.now cube feeder.now lines.old.items lines.new.items) }
{
    match text_of(alloc, space, cube, feeder)? {
        Some(text) => push_text(alloc, lines, space.shape(cube).name.shown(), text),
        None => { lines.extend_from_slice(b"  a feeder that no rule text says would cover it\n") }
    }
}

fn lines_of(alloc: Global, bytes: &[u8]) -> Result<Vec<u8>, AllocError>
    ensures { IfOk result (λ lines. lines.items ≡ bytes.now) }
{
    let mut lines = Vec::new(alloc);
    lines.extend_from_slice(bytes)?;
    Ok(lines)
}

// The lines of a reference to a cube that this feeder would cover.
fn feeder_lines(
    alloc: Global,
    space: &Space,
    cube: u32,
    feeder: &Feeder,
) -> Result<Vec<u8>, AllocError>
    requires cube { cube < length space.now.cubes }
    requires feeder { IsFeeder space.now cube feeder.now }
    ensures { IfOk result (λ lines.
        cover.AddsFeederOf space.now cube feeder.now cover.uncovered_line lines.items) }
{
    let mut lines = lines_of(alloc, b"  not covered\n")?;
    push_feeder(alloc, &mut lines, space, cube, feeder)?;
    Ok(lines)
}

// The lines of what can be done about a reference to a cube.
fn choice_lines(
    alloc: Global,
    space: &Space,
    cube: u32,
    choice: &Choice,
) -> Result<Vec<u8>, AllocError>
    requires cube { cube < length space.now.cubes }
    requires choice { IsChoice space.now cube choice.now }
    ensures { IfOk result (λ lines. cover.AreChoiceLines space.now cube choice.now lines.items) }
{
    match choice {
        Choice::Covered => lines_of(alloc, b"  covered\n"),
        Choice::Turned(feeder) => feeder_lines(alloc, space, cube, feeder),
        Choice::Missing => lines_of(alloc, b"  not covered\n  none can be turned round\n"),
    }
}

// The lines of a reference of a statement of a cube.
fn reference_lines(
    alloc: Global,
    model: &Model,
    cube: u32,
    statement: &Statement,
    reference: &Reference,
) -> Result<Vec<u8>, AllocError>
    requires cube { cube < length model.now.space.cubes }
    requires statement { IsStatement model.now.space cube statement.now }
    requires reference { IsReference model.now.space cube reference.now }
    ensures { IfOk result (λ lines.
        cover.AreReferenceLines model.now cube statement.now.area (Some reference.now) lines.items) }
{
    let asked = Asked {
        model,
        cube,
        area: &statement.area,
    };
    let mut kept = Kept::none(alloc, model, cube)?;
    let choice = choose(alloc, asked, reference, &mut kept)?;
    choice_lines(alloc, model.space(), reference.cube, &choice)
}

// The lines of an operand of a statement of a cube.
fn statement_lines(
    alloc: Global,
    model: &Model,
    cube: u32,
    statement: &Statement,
    operand: u32,
) -> Result<Vec<u8>, AllocError>
    requires cube { cube < length model.now.space.cubes }
    requires statement { IsStatement model.now.space cube statement.now }
    ensures { IfOk result (λ lines. cover.AreStatementLines model.now cube operand (Some statement.now) lines.items) }
{
    match operand_at(alloc, &statement.leaf, operand)? {
        Some(reference) => reference_lines(alloc, model, cube, statement, reference),
        None => Ok(Vec::new(alloc)),
    }
}

/// The lines that say of an operand of a statement's N part, where it is a reference, whether a feeder covers it, and
/// which one would. Cubes count from 0, the statements of a cube and the operands of its N part from 1. It fails only
/// when out of memory.
pub fn operand_lines(
    alloc: Global,
    model: &Model,
    cube: u32,
    statement: u32,
    operand: u32,
) -> Result<Vec<u8>, AllocError>
    requires { cube < length model.now.space.cubes }
    ensures { IfOk result (λ lines. cover.AreOperandLines model.now cube statement operand lines.items) }
{
    let _space = model.space();
    let statements = model.rules(cube).statements.as_slice();
    match statements.get(statement.saturating_sub(1) as usize) {
        Some(found) => statement_lines(alloc, model, cube, found, operand),
        None => Ok(Vec::new(alloc)),
    }
}
