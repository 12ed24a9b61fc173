ghost use Rattle.std.specs.Prelude.{◌≡◌, false, OnOk, IfOk, All, codes};
ghost use Rattle.cube_lex.specs.Lexed.{IsWellFormed};
ghost use Rattle.dim_text.specs.Readers.Views.{ahead};
ghost use Rattle.model_text.specs.Gathering.{Nothing};
ghost use Rattle.model_text.specs.Readers.Reading as reading;
ghost use Rattle.model_text.specs.Readers.Sections as sections;
ghost use Rattle.model_text.specs.Readers.Views.{LeadsTo};
ghost use Rattle.model_text.specs.Writable.{IsNameText};

use crate::fault::{ModelTextCause, ModelTextFault, refused};
use crate::partial::PartialModel;
use crate::pieces::{name_at, section_word_at};
use cube_lex::Position;
use dim_name::Name;
use grammar::{Cursor, Stop, Unwatched};
use std::alloc::Global;

/// The sections of a model text, by what their statements declare.
#[derive(Clone, Copy)]
pub enum Section {
    Dimension,
    Cube,
    Script,
}

impl Section {
    /// The word with which its statements begin.
    pub fn word(self) -> &'static [u8]
        ensures { result.now ≡ sections.word_of self }
    {
        match self {
            Section::Dimension => b"DIM",
            Section::Cube => b"CUBE",
            Section::Script => b"SCRIPT",
        }
    }
}

/// Reads the word of a statement, and gives its place.
#[tactic(auto, using(crate::proofs::Heads::word_gathered, crate::proofs::Heads::word_reader))]
pub fn position_at(
    cursor: &mut Cursor<'_, Unwatched>,
    partial: &PartialModel,
    section: Section,
) -> Result<Position, Stop<ModelTextFault>>
    ensures read { LeadsTo partial.now Nothing (sections.gather_word section) (sections.due section)
        cursor.old result cursor.new }
    ensures room { OnOk result (sections.is_full section partial.now ≡ false) }
{
    let position = section_word_at(cursor, section)?;
    if partial.is_full(section) {
        return Err(refused(position, ModelTextCause::TooMany));
    }
    Ok(position)
}

/// Reads the name of what is declared, whose word is at this place.
#[tactic(auto, using(crate::proofs::Heads::name_gathered), unfolding(crate::specs::Readers::Reading::gather_naming))]
pub fn new_name_at(
    alloc: Global,
    cursor: &mut Cursor<'_, Unwatched>,
    partial: &PartialModel,
    section: Section,
    word_position: Position,
) -> Result<Name, Stop<ModelTextFault>>
    ensures read { LeadsTo partial.now (sections.due section word_position) reading.gather_naming
        (λ name. sections.named section word_position name) cursor.old result cursor.new }
    ensures writable { All IsWellFormed (ahead cursor.old) → IfOk result (λ name. IsNameText name) }
{
    let (position, name) = name_at(alloc, cursor)?;
    if partial.has(section, &name) {
        return Err(refused(position, ModelTextCause::Duplicate));
    }
    Ok(name)
}
