ghost use Rattle.std.specs.Prelude.{◌≡◌, ◌++◌, ◌∷◌, ℕ, List, [], All, IfOk, OnOk, codes, decimal, slice_index_or};
ghost use Rattle.std.specs.Prelude.{if◌then◌else◌};
ghost use Rattle.cell_names.specs.CellNames.{cube_name, element_names, one_line};
ghost use Rattle.cell_trace.specs.Lines.{IsLineOf};
ghost use Rattle.trace_text.specs.TraceText.{fields_of, head_fields, joined, trace_text};
ghost use Rattle.cell_trace.specs.declared.line.Line.TheVariants as lines;
ghost use Rattle.cube_space.specs.Cells.{IsCell, cube_of, is_leaf_cell};
ghost use Rattle.cube_space.specs.Layout.{Layout};
ghost use Rattle.dim_name.specs.Bytes.{newline, tab};

use cell_names::{write_cell_cube, write_cell_elements, write_dimension, write_file_name};
use cell_trace::{Line, Part};
use cube_fixed::{Value, print};
use cube_space::MAX_DIMENSIONS;
use lists::ListOf;
use rule_model::{Model, place_of};
use std::alloc::{AllocError, Global};

// Writes a text and a number behind it.
fn write_numbered(
    alloc: Global,
    text: &[u8],
    number: u64,
    out: &mut Vec<u8>,
) -> Result<(), AllocError>
    ensures { OnOk result (out.new.items ≡ out.old.items ++ (text.now ++ decimal number)) }
{
    out.extend_from_slice(text)?;
    out.extend_from_slice(number.to_string(alloc)?.as_bytes())
}

// Writes two fields of a cell: its cube, and its elements.
fn write_cell(model: &Model, cell: u64, out: &mut Vec<u8>) -> Result<(), AllocError>
    requires { IsCell model.now.space cell }
    ensures { OnOk result (out.new.items ≡ out.old.items
        ++ (cube_name model.now.space cell ++ tab ∷ element_names model.now.space cell)) }
{
    write_cell_cube(model, cell, out)?;
    out.push(b'\t')?;
    write_cell_elements(model, cell, out)
}

// Writes the name of the rule file of the cell's cube.
fn write_file(
    model: &Model,
    files: &[ListOf<u8>],
    cell: u64,
    out: &mut Vec<u8>,
) -> Result<(), AllocError>
    requires { IsCell model.now.space cell }
    ensures { OnOk result (out.new.items
        ≡ out.old.items ++ one_line (slice_index_or files.now (cube_of model.now.space cell) [])) }
{
    let mut at = [0u32; MAX_DIMENSIONS];
    let (cube, _) = place_of(model, cell, &mut at);
    match files.get(cube as usize) {
        Some(file) => write_file_name(file.as_slice(), out),
        None => Ok(()),
    }
}

// A tab, and the mark of the part that a statement has for the cell.
fn part_mark(model: &Model, cell: u64) -> &'static [u8]
    requires { IsCell model.now.space cell }
    ensures { result.now
        ≡ tab ∷ (if is_leaf_cell model.now.space cell then codes "N" else codes "C") }
{
    if model.space().is_leaf(cell) {
        return b"\tN";
    }
    b"\tC"
}

fn write_rule(
    alloc: Global,
    model: &Model,
    files: &[ListOf<u8>],
    cell: u64,
    number: u32,
    out: &mut Vec<u8>,
) -> Result<(), AllocError>
    requires { IsCell model.now.space cell }
    ensures { OnOk result (out.new.items ≡ out.old.items
        ++ newline ∷ joined (fields_of model.now.space files.now cell (lines.Rule number))) }
{
    out.extend_from_slice(b"\nrule\t")?;
    write_file(model, files, cell, out)?;
    write_numbered(alloc, b"\tstatement\t", u64::from(number), out)?;
    out.extend_from_slice(part_mark(model, cell))
}

fn write_read(
    alloc: Global,
    model: &Model,
    number: u32,
    cell: u64,
    value: Value,
    out: &mut Vec<u8>,
) -> Result<(), AllocError>
    requires { IsCell model.now.space cell }
    ensures { OnOk result ((files : List (List ℕ)) (of : ℕ) → out.new.items ≡ out.old.items
        ++ newline ∷ joined (fields_of model.now.space files of (lines.Reads number cell value))) }
{
    write_numbered(alloc, b"\nreads\t", u64::from(number), out)?;
    out.push(b'\t')?;
    write_cell(model, cell, out)?;
    out.push(b'\t')?;
    print(alloc, value, out)
}

fn write_unread(alloc: Global, number: u32, out: &mut Vec<u8>) -> Result<(), AllocError>
    ensures { OnOk result ((space : Layout) (files : List (List ℕ)) (of : ℕ) → out.new.items ≡ out.old.items
        ++ newline ∷ joined (fields_of space files of (lines.ReadsNothing number))) }
{
    write_numbered(alloc, b"\nreads\t", u64::from(number), out)?;
    out.extend_from_slice(b"\tnothing\t0")
}

fn write_children(model: &Model, cell: u64, dim: u32, out: &mut Vec<u8>) -> Result<(), AllocError>
    requires cell { IsCell model.now.space cell }
    requires line { IsLineOf model.now.space cell (lines.Children dim) }
    ensures { OnOk result ((files : List (List ℕ)) → out.new.items ≡ out.old.items
        ++ newline ∷ joined (fields_of model.now.space files cell (lines.Children dim))) }
{
    let mut at = [0u32; MAX_DIMENSIONS];
    let (cube, _) = place_of(model, cell, &mut at);
    out.extend_from_slice(b"\nchildren\t")?;
    write_dimension(model.space(), cube, dim, out)
}

fn write_input(stored: bool, out: &mut Vec<u8>) -> Result<(), AllocError>
    ensures { OnOk result ((space : Layout) (files : List (List ℕ)) (of : ℕ) → out.new.items ≡ out.old.items
        ++ newline ∷ joined (fields_of space files of (lines.Input stored))) }
{
    if stored {
        out.extend_from_slice(b"\ninput\tstored")
    } else {
        out.extend_from_slice(b"\ninput\tempty")
    }
}

fn write_part(alloc: Global, model: &Model, part: Part, out: &mut Vec<u8>) -> Result<(), AllocError>
    requires { IsCell model.now.space part.cell }
    ensures { OnOk result ((files : List (List ℕ)) (of : ℕ) → out.new.items ≡ out.old.items
        ++ newline ∷ joined (fields_of model.now.space files of (lines.Part part))) }
{
    out.extend_from_slice(b"\npart\t")?;
    write_cell(model, part.cell, out)?;
    out.push(b'\t')?;
    out.extend_from_slice(part.weight.to_string(alloc)?.as_bytes())?;
    out.push(b'\t')?;
    print(alloc, part.value, out)
}

fn write_line(
    alloc: Global,
    model: &Model,
    files: &[ListOf<u8>],
    cell: u64,
    line: Line,
    out: &mut Vec<u8>,
) -> Result<(), AllocError>
    requires cell { IsCell model.now.space cell }
    requires line { IsLineOf model.now.space cell line }
    ensures { OnOk result (out.new.items ≡ out.old.items
        ++ newline ∷ joined (fields_of model.now.space files.now cell line)) }
{
    match line {
        Line::Rule(number) => write_rule(alloc, model, files, cell, number, out),
        Line::Reads(number, x, value) => write_read(alloc, model, number, x, value, out),
        Line::ReadsNothing(number) => write_unread(alloc, number, out),
        Line::Children(dim) => write_children(model, cell, dim, out),
        Line::Input(stored) => write_input(stored, out),
        Line::Sum => out.extend_from_slice(b"\nsum"),
        Line::Part(part) => write_part(alloc, model, part, out),
        Line::More(count) => write_numbered(alloc, b"\nmore\t", count, out),
    }
}

// Writes the first line: the cell with its value.
fn write_head(
    alloc: Global,
    model: &Model,
    cell: u64,
    value: Value,
    out: &mut Vec<u8>,
) -> Result<(), AllocError>
    requires { IsCell model.now.space cell }
    ensures { OnOk result (out.new.items
        ≡ out.old.items ++ newline ∷ joined (head_fields model.now.space cell value)) }
{
    out.extend_from_slice(b"\nvalue\t")?;
    write_cell(model, cell, out)?;
    out.push(b'\t')?;
    print(alloc, value, out)
}

/// The text of a trace of a cell of this value. `files` has the name of the rule file of each cube.
pub(crate) fn trace_text(
    alloc: Global,
    model: &Model,
    files: &[ListOf<u8>],
    cell: u64,
    value: Value,
    lines: &[Line],
) -> Result<Vec<u8>, AllocError>
    requires cell { IsCell model.now.space cell }
    requires lines { All (IsLineOf model.now.space cell) lines.now }
    ensures { IfOk result (λ text. text.items ≡ trace_text model.now.space files.now cell value lines.now) }
{
    let mut text = Vec::new(alloc);
    write_numbered(alloc, b"trace ", lines.len() as u64 + 1, &mut text)?;
    write_head(alloc, model, cell, value, &mut text)?;
    for line in lines {
        write_line(alloc, model, files, cell, *line, &mut text)?;
    }
    Ok(text)
}
