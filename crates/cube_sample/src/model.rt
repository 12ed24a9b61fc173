ghost use Rattle.std.specs.Prelude.{◌≡◌, ◌+◌, ◌≤◌, ◌<◌, ◌-◌, ◌^◌, ◌++◌, IfOk, OnOk};
ghost use Rattle.cube_sample.specs.Sample.{dimension_text, further_part, leaf_line, model_text, repeated};

use crate::records::{MONTHS, products_of};
use std::alloc::{AllocError, Global};

fn write_leaf(alloc: Global, out: &mut Vec<u8>, letter: &str, number: u32) -> Result<(), AllocError>
    ensures { OnOk result (out.new.items ≡ out.old.items ++ leaf_line letter.now number) }
{
    let line = format!(in alloc; "N '{letter}{number}';\n")?;
    out.extend_from_slice(line.as_bytes())
}

fn write_leaves(
    alloc: Global,
    out: &mut Vec<u8>,
    letter: &str,
    leaves: u32,
) -> Result<(), AllocError>
    ensures { OnOk result (out.new.items
        ≡ out.old.items ++ repeated (λ i. leaf_line letter.now (i + 1)) leaves) }
{
    for index in 0..leaves {
        write_leaf(alloc, out, letter, index + 1)?;
    }
    Ok(())
}

fn write_part(alloc: Global, out: &mut Vec<u8>, letter: &str, number: u32) -> Result<(), AllocError>
    ensures { OnOk result (out.new.items ≡ out.old.items ++ further_part letter.now number) }
{
    let part = format!(in alloc; ", '{letter}{number}'")?;
    out.extend_from_slice(part.as_bytes())
}

fn write_further_parts(
    alloc: Global,
    out: &mut Vec<u8>,
    letter: &str,
    parts: u32,
) -> Result<(), AllocError>
    requires { parts < 2 ^ 32 - 1 }
    ensures { OnOk result (out.new.items
        ≡ out.old.items ++ repeated (λ i. further_part letter.now (i + 2)) parts) }
{
    for index in 0..parts {
        write_part(alloc, out, letter, index + 2)?;
    }
    Ok(())
}

/// Appends a dimension of so many leaves under one total.
fn write_dimension(
    alloc: Global,
    out: &mut Vec<u8>,
    name: &str,
    letter: &str,
    total: &str,
    leaves: u32,
) -> Result<(), AllocError>
    requires { 1 ≤ leaves }
    ensures { OnOk result (out.new.items
        ≡ out.old.items ++ dimension_text name.now letter.now total.now leaves) }
{
    out.extend_from_slice(format!(in alloc; "DIM '{name}';\n")?.as_bytes())?;
    write_leaves(alloc, out, letter, leaves)?;
    out.extend_from_slice(format!(in alloc; "C '{total}': '{letter}1'")?.as_bytes())?;
    write_further_parts(alloc, out, letter, leaves - 1)?;
    out.extend_from_slice(b";\nEND;\n")
}

/// The model file.
pub(crate) fn model_file(alloc: Global, size: u32) -> Result<Vec<u8>, AllocError>
    requires { 1 ≤ size }
    ensures { IfOk result (λ text. text.items ≡ model_text size) }
{
    let mut out = Vec::from_slice(alloc, b"MODEL 1;\n")?;
    write_dimension(alloc, &mut out, "Product", "P", "Total", products_of(size))?;
    write_dimension(alloc, &mut out, "Month", "M", "Year", MONTHS)?;
    out.extend_from_slice(b"DIM 'Measure';\nN 'Units';\nN 'Price';\nN 'Sales';\nEND;\n")?;
    out.extend_from_slice(
        b"CUBE 'Shop' ('Product', 'Month', 'Measure');\nRULES 'shop.rux';\nORDER 'Measure' ('Sales' 1);\nEND;\n",
    )?;
    out.extend_from_slice(b"SCRIPT 'import' 'import.ti';\n")?;
    Ok(out)
}
