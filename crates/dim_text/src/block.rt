ghost use Rattle.std.specs.Prelude.{◌≡◌, ◌<◌, length, drop, All, OnOk};
ghost use Rattle.cube_lex.specs.Lexed.{IsWellFormed};
ghost use Rattle.dim_text.specs.Answers.{Answers};
ghost use Rattle.dim_text.specs.Building.{nothing, opened};
ghost use Rattle.dim_text.specs.Progress.{Progress, IsBuilt};
ghost use Rattle.dim_text.specs.Readers.Reading.{read_elements, read_ending, read_closing, read_body, read_block};
ghost use Rattle.dim_text.specs.Readers.Views.{GivesPartial, GivesEnd, GivesText, Explains, ahead};
ghost use Rattle.cube_lex.specs.Written.{IsQuotable};

use crate::element::{element_at, element_comes, head_at};
use crate::fault::{DimTextCause, DimTextFault, Refusal};
use crate::partial::PartialBlock;
use crate::text::{Block, DimText};
use cube_lex::{Position, Tokens, TokensLeft};
use dim_core::Name;
use grammar::{Cursor, Stop, Unwatched, position_left, sign, word};
use lists::TableKeys;
use std::alloc::Global;

// Reads the elements.
#[tactic(auto, unfolding(crate::specs::Readers::Reading::read_elements))]
fn elements_at(
    alloc: Global,
    cursor: &mut Cursor<'_, Unwatched>,
    mut block: PartialBlock,
) -> Result<PartialBlock, Stop<Refusal>>
    ensures { GivesPartial result (ahead cursor.new) (read_elements block (ahead cursor.old)) }
{
    'element: while element_comes(cursor) {
        let element = element_at(alloc, cursor)?;
        block.add(element)?;
    }
    Ok(block)
}

// Reads `END`.
#[tactic(auto, unfolding(crate::specs::Readers::Reading::read_ending, crate::specs::Readers::Reading::read_end))]
fn ending_at(
    cursor: &mut Cursor<'_, Unwatched>,
    block: PartialBlock,
) -> Result<Block, Stop<Refusal>>
    ensures { GivesEnd result block (ahead cursor.new) (read_ending block (ahead cursor.old)) }
{
    word(cursor, b"END")?;
    block.finish()
}

// Reads the last `;`.
#[tactic(auto, unfolding(crate::specs::Readers::Reading::read_closing, crate::specs::Readers::Reading::read_close))]
fn closing_at(cursor: &mut Cursor<'_, Unwatched>, block: Block) -> Result<Block, Stop<Refusal>>
    ensures { (p : Progress) → IsBuilt block p
        → GivesEnd result p (ahead cursor.new) (read_closing p (ahead cursor.old)) }
{
    sign(cursor, b";")?;
    Ok(block)
}

// Reads what stands behind the head.
#[tactic(auto, unfolding(crate::specs::Readers::Reading::read_body))]
fn statements_at(
    alloc: Global,
    cursor: &mut Cursor<'_, Unwatched>,
    head: Position,
    name: Name,
    table: TableKeys,
) -> Result<Block, Stop<Refusal>>
    ensures { GivesText result (ahead cursor.new) (read_body (opened head name) (ahead cursor.old)) }
{
    let partial = elements_at(alloc, cursor, PartialBlock::new(alloc, head, name, table)?)?;
    let block = ending_at(cursor, partial)?;
    closing_at(cursor, block)
}

/// Reads what stands behind the head of a block, `{ element } END ;`, where the head has this place and this name. The
/// tables of the dimension have these keys.
pub fn body_at(
    alloc: Global,
    cursor: &mut Cursor<'_, Unwatched>,
    head: Position,
    name: Name,
    table: TableKeys,
) -> Result<DimText, Stop<Refusal>>
    requires tokens { All IsWellFormed (ahead cursor.now) }
    requires name { IsQuotable name }
    ensures read { GivesText result (ahead cursor.new) (read_body (opened head name) (ahead cursor.old)) }
    ensures shorter { OnOk result (length cursor.new.tokens < length cursor.old.tokens) }
    ensures rest { OnOk result (All IsWellFormed (ahead cursor.new)) }
{
    match statements_at(alloc, cursor, head, name, table) {
        Ok(block) => Ok(DimText::new(block)),
        Err(stop) => Err(stop),
    }
}

// Reads a block, `DIM name ; { element } END ;`.
#[tactic(auto, unfolding(crate::specs::Readers::Reading::read_block, crate::specs::Readers::Reading::read_opening))]
fn block_at(alloc: Global, cursor: &mut Cursor<'_, Unwatched>) -> Result<DimText, Stop<Refusal>>
    requires { All IsWellFormed (ahead cursor.now) }
    ensures { GivesText result (ahead cursor.new) (read_block nothing (ahead cursor.old)) }
{
    let (head, name) = head_at(alloc, cursor)?;
    body_at(alloc, cursor, head, name, TableKeys::fixed())
}

// Why a block that begins with these tokens is refused.
fn fault_of(tokens: TokensLeft<'_>, end: Position, stop: Stop<Refusal>) -> DimTextFault
    ensures { Explains tokens.entry end stop result }
{
    match stop {
        Stop::Memory => DimTextFault {
            at: Position::nowhere(),
            cause: DimTextCause::Memory,
        },
        Stop::Unexpected(left) => DimTextFault {
            at: position_left(tokens, end, left),
            cause: DimTextCause::Syntax,
        },
        Stop::Refused(Refusal { at, fault }) => DimTextFault {
            at,
            cause: DimTextCause::Dim(fault),
        },
    }
}

/// Reads the block that begins at token `from`, and gives it with the place of the token after it. The tables of its
/// dimension have fixed keys.
pub fn read(
    alloc: Global,
    tokens: &Tokens<'_>,
    from: usize,
) -> Result<(DimText, usize), DimTextFault>
    ensures { Answers (drop from tokens.now.lexemes) tokens.now.end from result }
{
    let mut cursor = Cursor::new(tokens.left_from(from), Unwatched);
    match block_at(alloc, &mut cursor) {
        Ok(text) => Ok((text, tokens.len() - cursor.tokens.len())),
        Err(stop) => Err(fault_of(tokens.left_from(from), tokens.end(), stop)),
    }
}
