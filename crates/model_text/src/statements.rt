ghost use Rattle.std.specs.Prelude.{◌≡◌, OnOk, All};
ghost use Rattle.cube_lex.specs.Lexed.{IsWellFormed};
ghost use Rattle.dim_text.specs.Readers.Views.{ahead};
ghost use Rattle.model_text.specs.Readers.Later as later;
ghost use Rattle.model_text.specs.Readers.Views.{Collects, AreSame};

use crate::cubes::cube_at;
use crate::fault::ModelTextFault;
use crate::partial::PartialModel;
use crate::scripts::script_at;
use grammar::{Cursor, Stop, Unwatched, word_comes};
use std::alloc::Global;

/// The sections behind the dimensions, by what their statements declare.
#[derive(Clone, Copy)]
pub enum LaterSection {
    Cube,
    Script,
}

impl LaterSection {
    // The word with which its statements begin.
    fn word(self) -> &'static [u8]
        ensures { result.now ≡ later.word_of self }
    {
        match self {
            LaterSection::Cube => b"CUBE",
            LaterSection::Script => b"SCRIPT",
        }
    }
}

// Reads a statement of this section.
fn statement_at(
    alloc: Global,
    cursor: &mut Cursor<'_, Unwatched>,
    partial: &mut PartialModel,
    section: LaterSection,
) -> Result<(), Stop<ModelTextFault>>
    requires { All IsWellFormed (ahead cursor.old) }
    ensures read { Collects (later.read_one partial.old.version section) partial.old (λ _. partial.new)
        cursor.old result cursor.new }
    ensures same { OnOk result (AreSame partial.old partial.new) }
{
    match section {
        LaterSection::Cube => cube_at(alloc, cursor, partial),
        LaterSection::Script => script_at(alloc, cursor, partial),
    }
}

/// Reads the statements of this section.
pub fn statements_at(
    alloc: Global,
    cursor: &mut Cursor<'_, Unwatched>,
    partial: &mut PartialModel,
    section: LaterSection,
) -> Result<(), Stop<ModelTextFault>>
    requires { All IsWellFormed (ahead cursor.old) }
    ensures read { Collects (later.read_all partial.old.version section) partial.old (λ _. partial.new)
        cursor.old result cursor.new }
    ensures same { OnOk result (AreSame partial.old partial.new) }
{
    'statement: while word_comes(cursor, section.word()) {
        statement_at(alloc, cursor, partial, section)?;
    }
    Ok(())
}
