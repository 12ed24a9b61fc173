ghost use Rattle.std.specs.Prelude.{◌≡◌, ◌++◌, ◌∷◌, [], OnOk};
ghost use Rattle.cell_names.specs.CellNames.{one_line, quoted_name};
ghost use Rattle.cube_lex.specs.Quoted.{doubled};

use std::alloc::AllocError;

const QUOTE: u8 = b'\'';

// Writes a byte of a name, a quote twice, and a line end not at all.
fn write_byte(byte: u8, out: &mut Vec<u8>) -> Result<(), AllocError>
    ensures { OnOk result (out.new.items ≡ out.old.items ++ doubled (one_line (byte ∷ []))) }
{
    if byte == b'\n' {
        return Ok(());
    }
    if byte == QUOTE {
        out.push(QUOTE)?;
    }
    out.push(byte)?;
    Ok(())
}

/// Writes a name in quotes: each quote in it is doubled, and no line end is written.
pub fn write_quoted_name(bytes: &[u8], out: &mut Vec<u8>) -> Result<(), AllocError>
    ensures { OnOk result (out.new.items ≡ out.old.items ++ quoted_name bytes.now) }
{
    out.push(QUOTE)?;
    for byte in bytes {
        write_byte(*byte, out)?;
    }
    out.push(QUOTE)?;
    Ok(())
}

/// Writes the name of a file in one line.
pub fn write_file_name(name: &[u8], out: &mut Vec<u8>) -> Result<(), AllocError>
    ensures { OnOk result (out.new.items ≡ out.old.items ++ one_line name.now) }
{
    for byte in name {
        if *byte != b'\n' {
            out.push(*byte)?;
        }
    }
    Ok(())
}
