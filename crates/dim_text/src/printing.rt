ghost use Rattle.std.specs.Prelude.{◌≡◌, ◌++◌, ◌∷◌, [], ◌<◌, ℕ, length, All, IsTrue, OnOk, OnErr, codes};
ghost use Rattle.std.specs.List.{flat_map};
ghost use Rattle.cube_lex.specs.Parts.{is_sign};
ghost use Rattle.cube_lex.specs.Written.{Spaces, Writes};
ghost use Rattle.dim_core.specs.Outline.{IsDimension, names_of, name_of, components_of};
ghost use Rattle.dim_core.specs.Written.{by_name, written, written_attribute};
ghost use Rattle.dim_text.specs.Printed.{IsPrinted};
ghost use Rattle.cube_lex.specs.Written.{sign_token};
ghost use Rattle.dim_text.specs.Spelled.{part_spelled, next_part_spelled, parts_spelled};
ghost use Rattle.dim_text.specs.Spelled.{spelled, defining, element_spelled, attribute_spelled, draft_spelled};
ghost use Rattle.cube_lex.specs.Written.{IsQuotable};
ghost use Rattle.dim_text.specs.Writable.{IsWritable};

use crate::text::DimText;
use cube_lex::{Piece, write_line, write_pieces};
use dim_core::{Attribute, Dimension};
use std::alloc::{AllocError, Global};

// The name of an element, which can be written.
fn shown_of(dimension: &Dimension, element: u32) -> &[u8]
    requires writable { IsWritable dimension.now }
    requires within { element < length dimension.now.elements }
    ensures shown { result.now ≡ name_of dimension.now element }
    ensures quotable { IsQuotable result.now }
{
    dimension.name_of(element).shown()
}

// Writes a component behind a sign. A weight of 1 isn't written.
fn write_part<'a>(
    alloc: Global,
    out: &mut Vec<u8>,
    dimension: &'a Dimension,
    sign: &'a [u8],
    part: &(u32, i64),
) -> Result<(), AllocError>
    requires writable { IsWritable dimension.now }
    requires sign { IsTrue (is_sign sign.now) }
    requires within { part.now.0 < length dimension.now.elements }
    ensures { OnOk result (Spaces out.old.items out.new.items
        (sign_token sign.now ∷ part_spelled (name_of dimension.now part.now.0, part.now.1))) }
{
    let name = shown_of(dimension, part.0);
    let weight = part.1;
    let size = weight.unsigned_abs();
    if weight < 0 {
        let pieces = [
            Piece::Sign(sign),
            Piece::Quoted(name),
            Piece::Sign(b"*"),
            Piece::Sign(b"-"),
            Piece::Whole(size),
        ];
        write_pieces(alloc, out, &pieces)
    } else if size == 1 {
        write_pieces(alloc, out, &[Piece::Sign(sign), Piece::Quoted(name)])
    } else {
        let pieces = [
            Piece::Sign(sign),
            Piece::Quoted(name),
            Piece::Sign(b"*"),
            Piece::Whole(size),
        ];
        write_pieces(alloc, out, &pieces)
    }
}

// Writes components behind the first.
fn write_further(
    alloc: Global,
    out: &mut Vec<u8>,
    dimension: &Dimension,
    parts: &[(u32, i64)],
) -> Result<(), AllocError>
    requires writable { IsWritable dimension.now }
    requires within { All (λ c. c.0 < length dimension.now.elements) parts.now }
    ensures { OnOk result (Spaces out.old.items out.new.items
        (flat_map next_part_spelled (by_name (names_of dimension.now.elements) parts.now))) }
{
    for part in parts {
        write_part(alloc, out, dimension, b",", part)?;
    }
    Ok(())
}

// Writes the components of an element.
fn write_parts(
    alloc: Global,
    out: &mut Vec<u8>,
    dimension: &Dimension,
    parts: &[(u32, i64)],
) -> Result<(), AllocError>
    requires writable { IsWritable dimension.now }
    requires within { All (λ c. c.0 < length dimension.now.elements) parts.now }
    ensures { OnOk result (Spaces out.old.items out.new.items
        (parts_spelled (by_name (names_of dimension.now.elements) parts.now))) }
{
    let [first, further @ ..] = parts else {
        return Ok(());
    };
    write_part(alloc, out, dimension, b":", first)?;
    write_further(alloc, out, dimension, further)
}

// Writes the statement that defines an element.
fn write_element(
    alloc: Global,
    out: &mut Vec<u8>,
    dimension: &Dimension,
    element: u32,
) -> Result<(), AllocError>
    requires valid { IsDimension dimension.now }
    requires writable { IsWritable dimension.now }
    requires within { element < length dimension.now.elements }
    ensures { OnOk result (Writes out.old.items out.new.items
        (spelled (defining (name_of dimension.now element)
        (by_name (names_of dimension.now.elements) (components_of dimension.now element))))) }
{
    let name = shown_of(dimension, element);
    if dimension.is_leaf(element) {
        return write_line(
            alloc,
            out,
            &[Piece::Word(b"N"), Piece::Quoted(name), Piece::Sign(b";")],
        );
    }
    write_pieces(alloc, out, &[Piece::Word(b"C"), Piece::Quoted(name)])?;
    write_parts(alloc, out, dimension, dimension.components(element))?;
    write_line(alloc, out, &[Piece::Sign(b";")])
}

// Writes the statements that define the elements.
fn write_elements(alloc: Global, out: &mut Vec<u8>, dimension: &Dimension) -> Result<(), AllocError>
    requires valid { IsDimension dimension.now }
    requires writable { IsWritable dimension.now }
    ensures { OnOk result (Writes out.old.items out.new.items
        (flat_map element_spelled (written dimension.now).elements)) }
{
    for element in 0..dimension.len() {
        write_element(alloc, out, dimension, element)?;
    }
    Ok(())
}

// Writes the statement of an attribute.
fn write_attribute<'a>(
    alloc: Global,
    out: &mut Vec<u8>,
    dimension: &'a Dimension,
    attribute: &'a Attribute,
) -> Result<(), AllocError>
    requires writable { IsWritable dimension.now }
    requires within { attribute.now.element < length dimension.now.elements }
    requires name { IsQuotable attribute.now.name }
    requires text { IsQuotable attribute.now.text }
    ensures { OnOk result (Writes out.old.items out.new.items
        (attribute_spelled (written_attribute (names_of dimension.now.elements) attribute.now))) }
{
    let pieces = [
        Piece::Word(b"A"),
        Piece::Quoted(shown_of(dimension, attribute.element)),
        Piece::Quoted(attribute.name.shown()),
        Piece::Sign(b"="),
        Piece::Quoted(attribute.text.as_slice()),
        Piece::Sign(b";"),
    ];
    write_line(alloc, out, &pieces)
}

// Writes the statements of the attributes.
fn write_attributes(
    alloc: Global,
    out: &mut Vec<u8>,
    dimension: &Dimension,
) -> Result<(), AllocError>
    requires valid { IsDimension dimension.now }
    requires writable { IsWritable dimension.now }
    ensures { OnOk result (Writes out.old.items out.new.items
        (flat_map attribute_spelled (written dimension.now).attributes)) }
{
    for attribute in dimension.attributes() {
        write_attribute(alloc, out, dimension, attribute)?;
    }
    Ok(())
}

// Writes the whole block.
fn write_block(alloc: Global, out: &mut Vec<u8>, dimension: &Dimension) -> Result<(), AllocError>
    requires valid { IsDimension dimension.now }
    requires writable { IsWritable dimension.now }
    ensures { OnOk result (Writes out.old.items out.new.items (draft_spelled (written dimension.now))) }
{
    let name = dimension.name().shown();
    write_line(
        alloc,
        out,
        &[Piece::Word(b"DIM"), Piece::Quoted(name), Piece::Sign(b";")],
    )?;
    write_elements(alloc, out, dimension)?;
    write_attributes(alloc, out, dimension)?;
    write_line(alloc, out, &[Piece::Word(b"END"), Piece::Sign(b";")])
}

/// Writes a block that reads back to an equal dimension: its head, a line for each element by index, a line for each
/// attribute in the order of the statements, and its end. Names stand as they were written. A refusal changes nothing.
pub fn print(alloc: Global, text: &DimText, out: &mut Vec<u8>) -> Result<(), AllocError>
    ensures written { OnOk result (IsPrinted text.now.dimension out.old.items out.new.items) }
    ensures unchanged { OnErr result (out.new.items ≡ out.old.items) }
{
    let dimension = text.dimension();
    // Asked for what holds of every dimension.
    let _len = dimension.len();
    let mut block = Vec::new(alloc);
    write_block(alloc, &mut block, dimension)?;
    out.extend_from_slice(&block)
}
