ghost use Rattle.std.specs.Prelude.{◌≡◌, [], IfOk, IsTrue, All};
ghost use Rattle.cube_lex.specs.Lexed.{IsWellFormed};
ghost use Rattle.dim_text.specs.Readers.Views.{ahead};
ghost use Rattle.model_text.specs.Answers.{Answers};
ghost use Rattle.model_text.specs.Contents as contents;
ghost use Rattle.model_text.specs.Contents.{dimension_names};
ghost use Rattle.model_text.specs.Readers.Reading as reading;
ghost use Rattle.model_text.specs.Gathering.{Nothing, at};
ghost use Rattle.model_text.specs.Readers.Views.{Opens, GivesBlocks, fault_from};
ghost use Rattle.model_text.specs.Watching.{no_parts, nothing_seen};

use crate::dimensions::dimensions_at;
use crate::fault::{ModelTextCause, ModelTextFault, refused};
use crate::model::ModelText;
use crate::partial::PartialModel;
use crate::pieces::{closing_at, version_at};
use crate::statements::{LaterSection, statements_at};
use cube_lex::{Position, text_tokens};
use dim_text::DimText;
use grammar::{Cursor, Stop, TextFault, Unwatched, answer_of_text};
use lists::TableKeys;
use sha2::{Digest, Sha256};
use std::alloc::Global;

// Whether there are texts of this version.
fn is_version(number: u32) -> bool
    ensures { result ≡ contents.is_version number }
{
    number == 1 || number == 2
}

// Reads `MODEL whole`, where there are texts of that version.
#[tactic(auto, unfolding(crate::specs::Readers::Reading::gather_version))]
fn number_at(cursor: &mut Cursor<'_, Unwatched>) -> Result<u32, Stop<ModelTextFault>>
    ensures read { Opens (λ version. record no_parts { version = version }) result (ahead cursor.new)
        (reading.gather_version (at no_parts Nothing) (ahead cursor.old)) }
    ensures known { IfOk result (λ version. IsTrue (contents.is_version version)) }
{
    let (position, version) = version_at(cursor)?;
    if !is_version(version) {
        return Err(refused(position, ModelTextCause::WrongVersion));
    }
    Ok(version)
}

// Reads the first statement.
#[tactic(auto, unfolding(crate::specs::Readers::Reading::read_opening))]
fn opening_at(
    alloc: Global,
    cursor: &mut Cursor<'_, Unwatched>,
) -> Result<PartialModel, Stop<ModelTextFault>>
    ensures read { Opens (λ partial. partial) result (ahead cursor.new)
        (reading.read_opening (at no_parts Nothing) (ahead cursor.old)) }
    ensures begun { IfOk result (λ partial. IsTrue (contents.is_version partial.version) × (partial.names ≡ [])) }
{
    let version = number_at(cursor)?;
    closing_at(cursor)?;
    Ok(PartialModel::new(alloc, version))
}

// What the tables of names hash by: who picks names for a text can't foresee its digest.
fn keys_of(text: &[u8]) -> TableKeys {
    TableKeys::seeded(&Sha256::digest(text))
}

// Reads a model text.
fn model_at(
    alloc: Global,
    cursor: &mut Cursor<'_, Unwatched>,
    table: TableKeys,
) -> Result<(Vec<DimText>, PartialModel), Stop<ModelTextFault>>
    requires { All IsWellFormed (ahead cursor.old) }
    ensures read { GivesBlocks (λ x. x.0.items) (λ x. x.1) result (ahead cursor.new)
        (reading.read_model nothing_seen (ahead cursor.old)) }
    ensures version { IfOk result (λ x. IsTrue (contents.is_version x.1.version)) }
    ensures names { IfOk result (λ x. x.1.names ≡ dimension_names x.0.items) }
{
    let mut partial = opening_at(alloc, cursor)?;
    let dims = dimensions_at(alloc, cursor, &mut partial, table)?;
    statements_at(alloc, cursor, &mut partial, LaterSection::Cube)?;
    statements_at(alloc, cursor, &mut partial, LaterSection::Script)?;
    Ok((dims, partial))
}

// Why a text is refused.
fn fault_of(fault: TextFault<ModelTextFault>) -> ModelTextFault
    ensures { result ≡ fault_from fault }
{
    match fault {
        TextFault::Memory => ModelTextFault {
            at: Position::nowhere(),
            cause: ModelTextCause::Memory,
        },
        TextFault::Syntax(at) => ModelTextFault {
            at,
            cause: ModelTextCause::Syntax,
        },
        TextFault::Refused(fault) => fault,
    }
}

/// Reads the bytes of a model file. A byte order mark at its start is skipped.
pub fn read(alloc: Global, text: &[u8]) -> Result<ModelText, ModelTextFault>
    ensures { Answers text.now result }
{
    let tokens = text_tokens(text);
    let mut cursor = Cursor::new(tokens.left.again(), Unwatched);
    let model = model_at(alloc, &mut cursor, keys_of(text));
    match answer_of_text(&tokens, model, &cursor) {
        Ok((dims, partial)) => {
            let (version, cubes, scripts) = partial.into_parts();
            Ok(ModelText::new(version, dims, cubes, scripts))
        }
        Err(fault) => Err(fault_of(fault)),
    }
}
