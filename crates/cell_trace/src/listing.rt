ghost use Rattle.std.specs.Prelude.{◌≡◌, ◌++◌, ◌+◌, ◌==◌, ◌<◌, ◌≤◌, ◌^◌, [], ◌∷◌, All, IfSome, OnOk, reverse};
ghost use Rattle.std.specs.List.{list_any};
ghost use Rattle.cell_trace.specs.Inside.Items.{AreSameDimensions, IsItem, IsListable, children_lines_at, numbered};
ghost use Rattle.cell_trace.specs.Inside.Items.{entered_lines_at, item_lines_at, lines_of, number_after};
ghost use Rattle.cell_trace.specs.Inside.Items.{read_line_at, seen_after};
ghost use Rattle.cell_trace.specs.Inside.Sums.{IsReady};
ghost use Rattle.cell_trace.specs.Trace.{dimensions_in};
ghost use Rattle.cube_space.specs.Cells.{IsCell};

use crate::entered::Entered;
use crate::here::Here;
use crate::item::Item;
use crate::known::{Known, put_part_lines};
use crate::line::{Line, put};
use cell_reader::Snapshot;
use std::alloc::AllocError;

// Puts the line of the reference of this number behind the others, by the cell that it names.
fn put_read(
    here: &Here,
    number: u64,
    target: Option<u64>,
    known: &Known,
    reader: &mut Snapshot,
    lines: &mut Vec<Line>,
) -> Result<(), AllocError>
    requires number { number < 2 ^ 32 }
    requires cell { IfSome target (IsCell here.now.version.model.space) }
    requires ready { IsReady here.now known.now reader.old }
    ensures lines { OnOk result (lines.new.items ≡ lines.old.items ++ read_line_at here.now number target ∷ []) }
    ensures ready { IsReady here.now known.now reader.new }
{
    match target {
        Some(cell) => {
            let value = here.value(cell, reader)?;
            put(lines, Line::Reads(number as u32, cell, value))
        }
        None => put(lines, Line::ReadsNothing(number as u32)),
    }
}

// Whether a dimension is one of these.
fn is_seen(seen: &[u32], dim: u32) -> bool
    ensures { result ≡ list_any (λ d. d == dim) seen.now }
{
    seen.contains(&dim)
}

// Puts the components in a dimension behind the lines, unless it is one of those seen.
fn put_children(
    here: &Here,
    dim: u32,
    known: &mut Known,
    reader: &mut Snapshot,
    lines: &mut Vec<Line>,
    seen: &mut Vec<u32>,
) -> Result<(), AllocError>
    requires { IsReady here.now known.old reader.old }
    ensures lines { OnOk result (lines.new.items ≡ lines.old.items ++ children_lines_at here.now seen.old.items dim) }
    ensures seen { OnOk result (AreSameDimensions seen.new.items (dim ∷ seen.old.items)) }
    ensures ready { IsReady here.now known.new reader.new }
{
    put(lines, Line::Children(dim))?;
    if is_seen(seen, dim) {
        return Ok(());
    }
    seen.push(dim)?;
    put_part_lines(here, dim, known, reader, lines)
}

// Puts what an item reads behind the lines; `number` is that of its reference, where it is of one.
fn put_item(
    here: &Here,
    number: u64,
    item: &Option<Item>,
    known: &mut Known,
    reader: &mut Snapshot,
    lines: &mut Vec<Line>,
    seen: &mut Vec<u32>,
) -> Result<(), AllocError>
    requires number { number_after number item.now ≤ 2 ^ 32 }
    requires item { IsItem here.now item.now }
    requires ready { IsReady here.now known.old reader.old }
    ensures lines { OnOk result
        (lines.new.items ≡ lines.old.items ++ lines_of here.now seen.old.items number item.now) }
    ensures seen { OnOk result (AreSameDimensions seen.new.items (seen_after seen.old.items item.now)) }
    ensures ready { IsReady here.now known.new reader.new }
{
    match item {
        Some(Item::Read(target)) => put_read(here, number, *target, known, reader, lines),
        Some(Item::Children(dim)) => put_children(here, *dim, known, reader, lines, seen),
        Some(Item::Own) | Some(Item::Rest) | None => Ok(()),
    }
}

// The number of the next reference.
fn number_after(number: u64, item: &Option<Item>) -> u64
    requires { number_after number item.now ≤ 2 ^ 32 }
    ensures { result ≡ number_after number item.now }
{
    match item {
        Some(Item::Own) | Some(Item::Rest) => number,
        _ => number + 1,
    }
}

// Puts what evaluation reaches in a statement behind the lines, from the reference of this number on.
fn put_items(
    here: &Here,
    first: u64,
    visited: &[Option<Item>],
    known: &mut Known,
    reader: &mut Snapshot,
    lines: &mut Vec<Line>,
    seen: &mut Vec<u32>,
) -> Result<(), AllocError>
    requires numbers { first + numbered visited.now ≤ 2 ^ 32 }
    requires items { All (IsItem here.now) visited.now }
    requires ready { IsReady here.now known.old reader.old }
    ensures lines { OnOk result
        (lines.new.items ≡ lines.old.items ++ item_lines_at here.now seen.old.items first visited.now) }
    ensures seen { OnOk result (AreSameDimensions seen.new.items (dimensions_in visited.now ++ seen.old.items)) }
    ensures ready { IsReady here.now known.new reader.new }
{
    let mut number = first;
    for item in visited {
        put_item(here, number, item, known, reader, lines, seen)?;
        number = number_after(number, item);
    }
    Ok(())
}

/// Puts the statements that are entered behind the lines. They come last first.
pub(crate) fn put_entered(
    here: &Here,
    entered: Vec<Entered>,
    known: &mut Known,
    reader: &mut Snapshot,
    lines: &mut Vec<Line>,
) -> Result<(), AllocError>
    requires listable { All (IsListable here.now) entered.items }
    requires ready { IsReady here.now known.old reader.old }
    ensures lines { OnOk result
        (lines.new.items ≡ lines.old.items ++ entered_lines_at here.now [] (reverse entered.items)) }
    ensures ready { IsReady here.now known.new reader.new }
{
    let mut left = entered;
    let mut seen = Vec::new(here.alloc());
    while let Some(one) = left.pop() {
        put(lines, Line::Rule(one.place + 1))?;
        let visited = one.visited.as_slice();
        put_items(here, one.first, visited, known, reader, lines, &mut seen)?;
    }
    Ok(())
}
