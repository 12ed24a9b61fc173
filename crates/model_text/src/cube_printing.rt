ghost use Rattle.std.specs.Prelude.{◌≡◌, ◌<◌, [], length, get_or, All, IfSome, IsTrue, OnOk};
ghost use Rattle.std.specs.List.{flat_map};
ghost use Rattle.cube_lex.specs.Parts.{is_sign};
ghost use Rattle.cube_lex.specs.Written.{Spaces, Writes};
ghost use Rattle.model_text.specs.Contents.{dimension_names};
ghost use Rattle.model_text.specs.Spelled.{cube_head_spelled, dimension_spelled, next_dimension_spelled};
ghost use Rattle.model_text.specs.Spelled.{cube_dimensions_spelled, rules_spelled, cube_end_spelled, cube_spelled};
ghost use Rattle.model_text.specs.Writable.{IsNameText, IsFileText, IsWritableCube, IsWritableOrder};

use crate::order::OrderLine;
use crate::order_printing::write_order;
use crate::parts::CubeText;
use cube_lex::{Piece, Position, write_line, write_pieces};
use dim_name::Name;
use dim_text::DimText;
use lists::ListOf;
use std::alloc::{AllocError, Global};

// The name of the dimension of this number, which can be written.
fn dimension_name(dims: &[DimText], number: u32) -> &[u8]
    requires { number < length dims.now }
    ensures shown { result.now ≡ get_or (dimension_names dims.now) number [] }
    ensures writable { IsNameText result.now }
{
    dims[number as usize].dimension().name().shown()
}

// Writes a dimension of a cube behind a sign.
fn write_number<'a>(
    alloc: Global,
    out: &mut Vec<u8>,
    dims: &'a [DimText],
    sign: &'a [u8],
    number: u32,
) -> Result<(), AllocError>
    requires sign { IsTrue (is_sign sign.now) }
    requires within { number < length dims.now }
    ensures { OnOk result (Spaces out.old.items out.new.items
        (dimension_spelled sign.now (get_or (dimension_names dims.now) number []))) }
{
    let name = dimension_name(dims, number);
    write_pieces(alloc, out, &[Piece::Sign(sign), Piece::Quoted(name)])
}

// Writes the dimensions of a cube behind the first.
fn write_further_numbers(
    alloc: Global,
    out: &mut Vec<u8>,
    dims: &[DimText],
    numbers: &[u32],
) -> Result<(), AllocError>
    requires { All (λ number. number < length dims.now) numbers.now }
    ensures { OnOk result (Spaces out.old.items out.new.items
        (flat_map (next_dimension_spelled (dimension_names dims.now)) numbers.now)) }
{
    for number in numbers {
        write_number(alloc, out, dims, b",", *number)?;
    }
    Ok(())
}

// Writes the dimensions of a cube.
fn write_numbers(
    alloc: Global,
    out: &mut Vec<u8>,
    dims: &[DimText],
    numbers: &[u32],
) -> Result<(), AllocError>
    requires { All (λ number. number < length dims.now) numbers.now }
    ensures { OnOk result (Spaces out.old.items out.new.items
        (cube_dimensions_spelled (dimension_names dims.now) numbers.now)) }
{
    let [first, further @ ..] = numbers else {
        return Ok(());
    };
    write_number(alloc, out, dims, b"(", *first)?;
    write_further_numbers(alloc, out, dims, further)
}

// Writes `CUBE` and the name of a cube.
fn write_head(alloc: Global, out: &mut Vec<u8>, name: &Name) -> Result<(), AllocError>
    requires { IsNameText name.now }
    ensures { OnOk result (Spaces out.old.items out.new.items (cube_head_spelled name.now)) }
{
    write_pieces(
        alloc,
        out,
        &[Piece::Word(b"CUBE"), Piece::Quoted(name.shown())],
    )
}

// Writes the rule file of a cube, if there is one.
fn write_rules(
    alloc: Global,
    out: &mut Vec<u8>,
    rules: &Option<(Position, ListOf<u8>)>,
) -> Result<(), AllocError>
    requires { IfSome rules.now (λ r. IsFileText r.1) }
    ensures { OnOk result (Writes out.old.items out.new.items (rules_spelled rules.now)) }
{
    match rules {
        Some((_, file)) => {
            let tokens = [
                Piece::Word(b"RULES"),
                Piece::Quoted(file.as_slice()),
                Piece::Sign(b";"),
            ];
            write_line(alloc, out, &tokens)
        }
        None => Ok(()),
    }
}

// Writes the rest of a cube, from the `)` behind its dimensions on.
fn write_end(
    alloc: Global,
    out: &mut Vec<u8>,
    rules: &Option<(Position, ListOf<u8>)>,
    order: &Option<(Position, OrderLine)>,
) -> Result<(), AllocError>
    requires rules { IfSome rules.now (λ r. IsFileText r.1) }
    requires order { IfSome order.now (λ o. IsWritableOrder o.1.words) }
    ensures { OnOk result (Writes out.old.items out.new.items (cube_end_spelled rules.now order.now)) }
{
    write_line(alloc, out, &[Piece::Sign(b")"), Piece::Sign(b";")])?;
    write_rules(alloc, out, rules)?;
    write_order(alloc, out, order)?;
    write_line(alloc, out, &[Piece::Word(b"END"), Piece::Sign(b";")])
}

// Writes a cube.
fn write_cube(
    alloc: Global,
    out: &mut Vec<u8>,
    dims: &[DimText],
    cube: &CubeText,
) -> Result<(), AllocError>
    requires writable { IsWritableCube cube.now }
    requires within { All (λ number. number < length dims.now) cube.now.dims }
    ensures { OnOk result (Writes out.old.items out.new.items (cube_spelled (dimension_names dims.now) cube.now)) }
{
    write_head(alloc, out, &cube.name)?;
    write_numbers(alloc, out, dims, cube.dims.as_slice())?;
    write_end(alloc, out, &cube.rules, &cube.order)
}

/// Writes the cubes, whose dimensions are among these.
pub fn write_cubes(
    alloc: Global,
    out: &mut Vec<u8>,
    dims: &[DimText],
    cubes: &[CubeText],
) -> Result<(), AllocError>
    requires writable { All IsWritableCube cubes.now }
    requires within { All (λ cube. All (λ number. number < length dims.now) cube.dims) cubes.now }
    ensures { OnOk result (Writes out.old.items out.new.items
        (flat_map (cube_spelled (dimension_names dims.now)) cubes.now)) }
{
    for cube in cubes {
        write_cube(alloc, out, dims, cube)?;
    }
    Ok(())
}
