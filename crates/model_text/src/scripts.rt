ghost use Rattle.std.specs.Prelude.{OnOk, All, codes};
ghost use Rattle.cube_lex.specs.Lexed.{IsWellFormed};
ghost use Rattle.dim_text.specs.Readers.Views.{ahead};
ghost use Rattle.model_text.specs.Readers.Reading as reading;
ghost use Rattle.model_text.specs.Readers.Views.{Collects, AreSame};

use crate::fault::ModelTextFault;
use crate::partial::PartialModel;
use crate::parts::ScriptText;
use crate::pieces::{closing_at, script_file_at};
use crate::section::{Section, new_name_at, position_at};
use grammar::{Cursor, Stop, Unwatched};
use std::alloc::Global;

/// Reads a script.
#[tactic(auto, unfolding(crate::specs::Readers::Reading::read_script))]
pub fn script_at(
    alloc: Global,
    cursor: &mut Cursor<'_, Unwatched>,
    partial: &mut PartialModel,
) -> Result<(), Stop<ModelTextFault>>
    requires { All IsWellFormed (ahead cursor.old) }
    ensures read { Collects reading.read_script partial.old (λ _. partial.new) cursor.old result cursor.new }
    ensures same { OnOk result (AreSame partial.old partial.new) }
{
    let position = position_at(cursor, partial, Section::Script)?;
    let name = new_name_at(alloc, cursor, partial, Section::Script, position)?;
    let (_, file) = script_file_at(alloc, cursor)?;
    closing_at(cursor)?;
    partial.add_script(ScriptText {
        at: position,
        name,
        file,
    })?;
    Ok(())
}
