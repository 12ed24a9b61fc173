ghost use Rattle.std.specs.Prelude.{◌≡◌, ◌<◌, length, OnOk, IfOk, All, codes};
ghost use Rattle.cube_lex.specs.Lexed.{IsWellFormed};
ghost use Rattle.dim_text.specs.Readers.Views.{ahead};
ghost use Rattle.grammar.specs.Cursor.{Reads};
ghost use Rattle.model_text.specs.Readers.Reading as reading;
ghost use Rattle.model_text.specs.Statement as statement;
ghost use Rattle.model_text.specs.Readers.Sections as sections;
ghost use Rattle.model_text.specs.Statement.{QuotedText};
ghost use Rattle.model_text.specs.Writable.{IsNameText};

use crate::fault::ModelTextFault;
use crate::section::Section;
use cube_lex::Position;
use dim_name::Name;
use grammar::{Cursor, Stop, Unwatched, located_file, located_name, located_whole, sign, word};
use lists::ListOf;
use std::alloc::Global;

/// Reads `MODEL whole`, and gives the number with its place.
#[tactic(auto, unfolding(crate::specs::Readers::Reading::read_version))]
pub fn version_at(
    cursor: &mut Cursor<'_, Unwatched>,
) -> Result<(Position, u32), Stop<ModelTextFault>>
    ensures { Reads (λ x. statement.Version x.0 x.1) reading.read_version cursor.old result cursor.new }
{
    word(cursor, b"MODEL")?;
    let version = located_whole(cursor)?;
    Ok(version)
}

/// Reads `;`.
#[tactic(auto, unfolding(crate::specs::Readers::Reading::read_closing))]
pub fn closing_at(cursor: &mut Cursor<'_, Unwatched>) -> Result<(), Stop<ModelTextFault>>
    ensures { Reads (λ _. statement.Closing) reading.read_closing cursor.old result cursor.new }
{
    sign(cursor, b";")?;
    Ok(())
}

/// Reads the word with which the statements of this section begin, and gives its place.
#[tactic(auto, unfolding(crate::specs::Readers::Sections::read_word))]
pub fn section_word_at(
    cursor: &mut Cursor<'_, Unwatched>,
    section: Section,
) -> Result<Position, Stop<ModelTextFault>>
    ensures { Reads (λ at. sections.word_piece section at) (sections.read_word section)
        cursor.old result cursor.new }
{
    let position = word(cursor, section.word())?;
    Ok(position)
}

/// Reads a name, and gives it with its place.
#[tactic(auto, unfolding(crate::specs::Readers::Reading::read_naming))]
pub fn name_at(
    alloc: Global,
    cursor: &mut Cursor<'_, Unwatched>,
) -> Result<(Position, Name), Stop<ModelTextFault>>
    ensures read { Reads (λ x. QuotedText x.0 x.1) reading.read_naming cursor.old result cursor.new }
    ensures writable { All IsWellFormed (ahead cursor.old) → IfOk result (λ x. IsNameText x.1) }
{
    let shown = located_name(alloc, cursor)?;
    Ok(shown)
}

/// Reads the file of a script.
#[tactic(auto, unfolding(crate::specs::Readers::Reading::read_script_file))]
pub fn script_file_at(
    alloc: Global,
    cursor: &mut Cursor<'_, Unwatched>,
) -> Result<(Position, ListOf<u8>), Stop<ModelTextFault>>
    ensures { Reads (λ x. QuotedText x.0 x.1) reading.read_script_file cursor.old result cursor.new }
{
    let file = located_file(alloc, cursor)?;
    Ok(file)
}

/// Reads a sign, and a dimension's name behind it, and gives the name with its place.
#[tactic(auto, unfolding(crate::specs::Readers::Reading::read_dimension_behind))]
pub fn dimension_behind(
    alloc: Global,
    cursor: &mut Cursor<'_, Unwatched>,
    before: &[u8],
) -> Result<(Position, Name), Stop<ModelTextFault>>
    ensures read { Reads (λ x. statement.CubeDimension x.0 x.1) (reading.read_dimension_behind before.now)
        cursor.old result cursor.new }
    ensures shorter { OnOk result (length cursor.new.tokens < length cursor.old.tokens) }
{
    sign(cursor, before)?;
    let shown = located_name(alloc, cursor)?;
    Ok(shown)
}
