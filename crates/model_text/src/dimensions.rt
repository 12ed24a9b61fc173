ghost use Rattle.std.specs.Prelude.{◌≡◌, ◌<◌, [], length, OnOk, IfOk, All, codes};
ghost use Rattle.cube_lex.specs.Lexed.{IsWellFormed};
ghost use Rattle.cube_lex.specs.Written.{IsQuotable};
ghost use Rattle.dim_text.specs.Readers.Views.{ahead};
ghost use Rattle.model_text.specs.Contents.{dimension_names, most_model_dimensions};
ghost use Rattle.model_text.specs.Readers.Reading as reading;
ghost use Rattle.model_text.specs.Gathering.{Nothing, DimensionBody, with_name};
ghost use Rattle.model_text.specs.Readers.Views.{LeadsTo, ReadsBlock, GivesBlocks, stop_of, seen};

use crate::fault::{ModelTextCause, ModelTextFault, refused};
use crate::partial::PartialModel;
use crate::pieces::closing_at;
use crate::section::{Section, new_name_at, position_at};
use cube_lex::Position;
use dim_name::Name;
use dim_text::{DimText, Refusal, body_at};
use grammar::{Cursor, Stop, Unwatched, word_comes};
use lists::TableKeys;
use std::alloc::{AllocError, Global};

// Reads the head of a dimension: its place and its name.
#[tactic(auto, unfolding(crate::specs::Readers::Reading::read_dimension_head))]
fn head_at(
    alloc: Global,
    cursor: &mut Cursor<'_, Unwatched>,
    partial: &PartialModel,
) -> Result<(Position, Name), Stop<ModelTextFault>>
    ensures read { LeadsTo partial.now Nothing reading.read_dimension_head (λ head. DimensionBody head.0 head.1)
        cursor.old result cursor.new }
    ensures room { OnOk result (length partial.now.names < most_model_dimensions) }
    ensures quotable { All IsWellFormed (ahead cursor.old) → IfOk result (λ head. IsQuotable head.1) }
{
    let position = position_at(cursor, partial, Section::Dimension)?;
    let name = new_name_at(alloc, cursor, partial, Section::Dimension, position)?;
    closing_at(cursor)?;
    Ok((position, name))
}

// Why a block stops the reading of a model text.
fn of_block(stop: Stop<Refusal>) -> Stop<ModelTextFault>
    ensures { result ≡ stop_of stop }
{
    match stop {
        Stop::Memory => Stop::Memory,
        Stop::Unexpected(left) => Stop::Unexpected(left),
        Stop::Refused(Refusal { at, fault }) => refused(at, ModelTextCause::Dim(fault)),
    }
}

// The same name once more.
fn copy_of(alloc: Global, name: &Name) -> Result<Name, AllocError>
    ensures { IfOk result (λ copy. copy ≡ name.now) }
{
    match Name::new(alloc, name.shown()) {
        Ok(copy) => Ok(copy),
        Err(_) => Err(AllocError),
    }
}

/// Reads the block of a dimension.
pub fn dimension_at(
    alloc: Global,
    cursor: &mut Cursor<'_, Unwatched>,
    partial: &mut PartialModel,
    table: TableKeys,
) -> Result<DimText, Stop<ModelTextFault>>
    requires { All IsWellFormed (ahead cursor.old) }
    ensures read { ReadsBlock partial.old partial.new cursor.old result cursor.new }
    ensures added { IfOk result (λ text. partial.new ≡ with_name partial.old text.dimension.name) }
    ensures rest { OnOk result (All IsWellFormed (ahead cursor.new)) }
    ensures shorter { OnOk result (length cursor.new.tokens < length cursor.old.tokens) }
{
    let (position, name) = head_at(alloc, cursor, partial)?;
    let copy = copy_of(alloc, &name)?;
    match body_at(alloc, cursor, position, name, table) {
        Ok(text) => {
            partial.add_dimension(copy)?;
            Ok(text)
        }
        Err(stop) => Err(of_block(stop)),
    }
}

/// Reads the dimensions, whose tables have these keys.
#[tactic(auto, unfolding(crate::specs::Readers::Reading::read_dimensions))]
pub fn dimensions_at(
    alloc: Global,
    cursor: &mut Cursor<'_, Unwatched>,
    partial: &mut PartialModel,
    table: TableKeys,
) -> Result<Vec<DimText>, Stop<ModelTextFault>>
    requires tokens { All IsWellFormed (ahead cursor.old) }
    requires none { partial.old.names ≡ [] }
    ensures read { GivesBlocks (λ dims. dims.items) (λ _. partial.new) result (ahead cursor.new)
        (reading.read_dimensions (seen [] partial.old) (ahead cursor.old)) }
    ensures names { IfOk result (λ dims. partial.new ≡ record partial.old { names = dimension_names dims.items }) }
{
    let mut dims = Vec::new(alloc);
    'dimension: while word_comes(cursor, b"DIM") {
        let text = dimension_at(alloc, cursor, partial, table)?;
        dims.push(text)?;
    }
    Ok(dims)
}
