ghost use Rattle.std.specs.Prelude.{◌≡◌, All, OnOk, OnErr};
ghost use Rattle.std.specs.List.{flat_map};
ghost use Rattle.cube_lex.specs.Written.{Writes};
ghost use Rattle.model_text.specs.Printed.{IsPrinted};
ghost use Rattle.model_text.specs.Spelled.{dim_spelled, contents_spelled, opening_spelled, script_spelled};
ghost use Rattle.model_text.specs.Readers.Views.{IsValid};
ghost use Rattle.model_text.specs.Writable.{IsWritableScript};

use crate::cube_printing::write_cubes;
use crate::model::ModelText;
use crate::parts::ScriptText;
use cube_lex::{Piece, write_line};
use dim_text::DimText;
use std::alloc::{AllocError, Global};

// Writes the first statement.
fn write_opening(alloc: Global, out: &mut Vec<u8>, version: u32) -> Result<(), AllocError>
    ensures { OnOk result (Writes out.old.items out.new.items (opening_spelled version)) }
{
    let tokens = [
        Piece::Word(b"MODEL"),
        Piece::Whole(u64::from(version)),
        Piece::Sign(b";"),
    ];
    write_line(alloc, out, &tokens)
}

// Writes the blocks of the dimensions.
fn write_dims(alloc: Global, out: &mut Vec<u8>, dims: &[DimText]) -> Result<(), AllocError>
    ensures { OnOk result (All IsValid dims.now × Writes out.old.items out.new.items (flat_map dim_spelled dims.now)) }
{
    for dim in dims {
        // Asked for what holds of every dimension.
        let _len = dim.dimension().len();
        dim_text::print(alloc, dim, out)?;
    }
    Ok(())
}

// Writes a script.
fn write_script(alloc: Global, out: &mut Vec<u8>, script: &ScriptText) -> Result<(), AllocError>
    requires { IsWritableScript script.now }
    ensures { OnOk result (Writes out.old.items out.new.items (script_spelled script.now)) }
{
    let tokens = [
        Piece::Word(b"SCRIPT"),
        Piece::Quoted(script.name.shown()),
        Piece::Quoted(script.file.as_slice()),
        Piece::Sign(b";"),
    ];
    write_line(alloc, out, &tokens)
}

// Writes the scripts.
fn write_scripts(alloc: Global, out: &mut Vec<u8>, scripts: &[ScriptText]) -> Result<(), AllocError>
    requires { All IsWritableScript scripts.now }
    ensures { OnOk result (Writes out.old.items out.new.items (flat_map script_spelled scripts.now)) }
{
    for script in scripts {
        write_script(alloc, out, script)?;
    }
    Ok(())
}

// Writes the whole text.
fn write_model(alloc: Global, out: &mut Vec<u8>, text: &ModelText) -> Result<(), AllocError>
    ensures { OnOk result (All IsValid text.now.dims × Writes out.old.items out.new.items (contents_spelled text.now)) }
{
    write_opening(alloc, out, text.version())?;
    write_dims(alloc, out, text.dims())?;
    write_cubes(alloc, out, text.dims(), text.cubes())?;
    write_scripts(alloc, out, text.scripts())
}

/// Writes a model text that reads back to equal contents, but for places: its version, the blocks of its dimensions,
/// its cubes and its scripts, in their order. A refusal changes nothing.
pub fn print(alloc: Global, text: &ModelText, out: &mut Vec<u8>) -> Result<(), AllocError>
    ensures written { OnOk result (IsPrinted text.now out.old.items out.new.items) }
    ensures unchanged { OnErr result (out.new.items ≡ out.old.items) }
{
    // Asked for what holds of every model text.
    let _version = text.version();
    let mut bytes = Vec::new(alloc);
    write_model(alloc, &mut bytes, text)?;
    out.extend_from_slice(&bytes)
}
