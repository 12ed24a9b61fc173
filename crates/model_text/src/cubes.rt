ghost use Rattle.std.specs.Prelude.{◌≡◌, ◌<◌, ◌≤◌, ℕ, nat_eq, [], ◌∷◌, List, length, OnOk, IfOk, All, codes};
ghost use Rattle.std.specs.List.{list_any};
ghost use Rattle.cube_lex.specs.Lexed.{IsWellFormed};
ghost use Rattle.dim_text.specs.Readers.Views.{ahead};
ghost use Rattle.model_text.specs.Readers.Reading as reading;
ghost use Rattle.model_text.specs.Gathering.{Nothing, CubeOpen};
ghost use Rattle.model_text.specs.Statement.{has_totals};
ghost use Rattle.model_text.specs.Readers.Views.{LeadsTo, Collects, GathersDimension, ReadsDimension, AreSame};
ghost use Rattle.model_text.specs.Writable.{IsNameText};

use crate::fault::{ModelTextCause, ModelTextFault, refused};
use crate::order_line::{cube_end_at, order_of};
use crate::partial::PartialModel;
use crate::parts::CubeText;
use crate::pieces::dimension_behind;
use crate::section::{Section, new_name_at, position_at};
use cube_lex::Position;
use dim_name::Name;
use grammar::{Cursor, Stop, Unwatched, sign_comes};
use lists::ListOf;
use std::alloc::{AllocError, Global};

// Reads the head of a cube: its place and its name.
#[tactic(auto, unfolding(crate::specs::Readers::Reading::read_cube_head))]
fn head_at(
    alloc: Global,
    cursor: &mut Cursor<'_, Unwatched>,
    partial: &PartialModel,
) -> Result<(Position, Name), Stop<ModelTextFault>>
    ensures read { LeadsTo partial.now Nothing reading.read_cube_head (λ head. CubeOpen head.0 head.1 [])
        cursor.old result cursor.new }
    ensures writable { All IsWellFormed (ahead cursor.old) → IfOk result (λ head. IsNameText head.1) }
{
    let position = position_at(cursor, partial, Section::Cube)?;
    let name = new_name_at(alloc, cursor, partial, Section::Cube, position)?;
    Ok((position, name))
}

// Whether the number is one of these.
fn is_among(numbers: &[u32], number: u32) -> bool
    ensures { result ≡ list_any (nat_eq number) numbers.now }
{
    numbers.iter().any(|known| number == *known)
}

// A list of this number alone.
fn alone(alloc: Global, number: u32) -> Result<Vec<u32>, AllocError>
    ensures { IfOk result (λ numbers. numbers.items ≡ number ∷ []) }
{
    let mut numbers = Vec::new(alloc);
    numbers.push(number)?;
    Ok(numbers)
}

// The number of the dimension of this name, which a cube with these dimensions so far names at this place.
fn number_of(
    partial: &PartialModel,
    position: Position,
    name: &Name,
    dims: &[u32],
) -> Result<u32, Stop<ModelTextFault>>
    ensures { GathersDimension partial.now dims.now position name.now result }
{
    let Some(number) = partial.dimension(name) else {
        return Err(refused(position, ModelTextCause::UnknownName));
    };
    if is_among(dims, number) {
        return Err(refused(position, ModelTextCause::Duplicate));
    }
    Ok(number)
}

// Reads a sign and the name of a further dimension, and gives the dimension's number.
fn dimension_at(
    alloc: Global,
    cursor: &mut Cursor<'_, Unwatched>,
    partial: &PartialModel,
    dims: &[u32],
    before: &[u8],
) -> Result<u32, Stop<ModelTextFault>>
    ensures read { ReadsDimension partial.now dims.now before.now cursor.old result cursor.new }
    ensures shorter { OnOk result (length cursor.new.tokens < length cursor.old.tokens) }
{
    let (position, name) = dimension_behind(alloc, cursor, before)?;
    number_of(partial, position, &name, dims)
}

// Reads the dimensions of a cube behind these.
#[tactic(auto, unfolding(crate::specs::Readers::Reading::gather_further_dimensions))]
fn further_dimensions(
    alloc: Global,
    cursor: &mut Cursor<'_, Unwatched>,
    partial: &PartialModel,
    mut dims: Vec<u32>,
) -> Result<Vec<u32>, Stop<ModelTextFault>>
    ensures read { (word_place : Position) (cube : List ℕ)
        → LeadsTo partial.now (CubeOpen word_place cube dims.items) reading.gather_further_dimensions
        (λ all. CubeOpen word_place cube all.items) cursor.old result cursor.new }
    ensures more { IfOk result (λ all. length dims.items ≤ length all.items) }
{
    'dimension: while sign_comes(cursor, b",") {
        let number = dimension_at(alloc, cursor, partial, &dims, b",")?;
        dims.push(number)?;
    }
    Ok(dims)
}

// Reads the dimensions of a cube.
#[tactic(auto, unfolding(crate::specs::Readers::Reading::read_cube_dimensions))]
fn dimensions_at(
    alloc: Global,
    cursor: &mut Cursor<'_, Unwatched>,
    partial: &PartialModel,
) -> Result<Vec<u32>, Stop<ModelTextFault>>
    ensures read { (word_place : Position) (cube : List ℕ)
        → LeadsTo partial.now (CubeOpen word_place cube []) reading.read_cube_dimensions
        (λ dims. CubeOpen word_place cube dims.items) cursor.old result cursor.new }
    ensures some { IfOk result (λ dims. 0 < length dims.items) }
{
    let first = dimension_at(alloc, cursor, partial, &[], b"(")?;
    let dims = alone(alloc, first)?;
    further_dimensions(alloc, cursor, partial, dims)
}

/// Reads a cube.
#[tactic(auto, unfolding(crate::specs::Readers::Reading::read_cube, crate::specs::Readers::Reading::gather_cube_end))]
pub fn cube_at(
    alloc: Global,
    cursor: &mut Cursor<'_, Unwatched>,
    partial: &mut PartialModel,
) -> Result<(), Stop<ModelTextFault>>
    requires { All IsWellFormed (ahead cursor.old) }
    ensures read { Collects (reading.read_cube (has_totals partial.old.version)) partial.old (λ _. partial.new)
        cursor.old result cursor.new }
    ensures same { OnOk result (AreSame partial.old partial.new) }
{
    let (position, name) = head_at(alloc, cursor, partial)?;
    let dims = dimensions_at(alloc, cursor, partial)?;
    let (rules, order) = cube_end_at(alloc, cursor, partial.has_totals())?;
    let dims = ListOf::new(dims);
    let order = order_of(partial.version(), order);
    partial.add_cube(CubeText {
        at: position,
        name,
        dims,
        rules,
        order,
    })?;
    Ok(())
}
