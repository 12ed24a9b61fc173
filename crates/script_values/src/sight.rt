ghost use Rattle.std.specs.Prelude.{◌≡◌, slice_get, IfOk};
ghost use Rattle.std.specs.Option.{option_map};
ghost use Rattle.script_values.specs.Values.{amount, held, column, filled, text};

use crate::datum::Datum;
use crate::kept::Kept;
use crate::load_reason::LoadReason;
use crate::text::Text;
use crate::wanted::{amount_in, column_amount};
use cube_fixed::Value;
use sqlite_items::at;
use std::alloc::{AllocError, Global};
use std::marker::Model;
use user_text::Record;

/// What an expression sees beside the cells: the variables by their numbers, in the Data section the columns of the
/// record, and the byte between units and decimals of numbers in columns.
#[derive(Drop)]
pub struct Sight<'a> {
    variables: &'a [Option<Kept>],
    columns: Option<&'a Record<'a>>,
    decimal: u8,
}

impl<'a> Model for Sight<'a> {
    ghost use Rattle.std.specs.Option.{option_map};
    ghost use Rattle.script_values.specs.Scene.{Scene};

    ghost Value = { Scene };

    ghost view = { λ sight. record {
      variables = sight.variables.now;
      columns = option_map (λ columns. columns.now) sight.columns;
      decimal = sight.decimal;
    } };
}

/// What a variable gives.
fn held<'a>(variables: &'a [Option<Kept>], place: usize) -> Result<Datum<'a>, LoadReason>
    ensures { result ≡ held (slice_get variables.now place) }
{
    match at(variables, place) {
        Some(Some(Kept::Number(value))) => Ok(Datum::Number(*value)),
        Some(Some(Kept::Text(bytes))) => Ok(Datum::Text(Text::borrowed(bytes.as_slice()))),
        _ => Err(LoadReason::UnsetVariable),
    }
}

/// What a variable gives as a number.
fn held_amount(variables: &[Option<Kept>], place: usize) -> Result<Value, LoadReason>
    ensures { result ≡ amount (held (slice_get variables.now place)) }
{
    match at(variables, place) {
        Some(Some(Kept::Number(value))) => Ok(*value),
        Some(Some(Kept::Text(bytes))) => amount_in(bytes.as_slice()),
        _ => Err(LoadReason::UnsetVariable),
    }
}

/// The column of a record, which is empty past the record's end.
fn filled<'a>(columns: &'a Record<'a>, place: usize) -> Text<'a>
    ensures { result ≡ filled (slice_get columns.now place) }
{
    match columns.column(place) {
        Some(bytes) => Text::borrowed(bytes),
        None => Text::borrowed(&[]),
    }
}

impl<'a> Sight<'a> {
    pub fn new(
        variables: &'a [Option<Kept>],
        columns: Option<&'a Record<'a>>,
        decimal: u8,
    ) -> Sight<'a>
        ensures variables { result.variables ≡ variables.now }
        ensures columns { result.columns ≡ option_map (λ columns. columns.now) columns.entry }
        ensures decimal { result.decimal ≡ decimal }
    {
        Sight {
            variables,
            columns,
            decimal,
        }
    }

    /// What a variable gives.
    pub(crate) fn variable(&self, place: usize) -> Result<Datum<'a>, LoadReason>
        ensures { result ≡ held (slice_get self.now.variables place) }
    {
        held(self.variables, place)
    }

    /// What a variable gives as a number.
    pub(crate) fn amount(&self, place: usize) -> Result<Value, LoadReason>
        ensures { result ≡ amount (held (slice_get self.now.variables place)) }
    {
        held_amount(self.variables, place)
    }

    /// What a column gives.
    pub(crate) fn column(&self, place: usize) -> Result<Datum<'a>, LoadReason>
        ensures { result ≡ column self.now.decimal place self.now.columns }
    {
        match self.columns {
            Some(columns) => Ok(Datum::Column(filled(columns, place), self.decimal)),
            None => Err(LoadReason::UnsetVariable),
        }
    }

    /// What a column gives as a number.
    pub(crate) fn column_amount(&self, place: usize) -> Result<Value, LoadReason>
        ensures { result ≡ amount (column self.now.decimal place self.now.columns) }
    {
        match self.columns {
            Some(columns) => {
                let text = filled(columns, place);
                column_amount(self.decimal, text.as_slice())
            }
            None => Err(LoadReason::UnsetVariable),
        }
    }

    /// What a column gives as a text.
    pub(crate) fn text(&self, place: usize) -> Result<Text<'a>, LoadReason>
        ensures { result ≡ text (column self.now.decimal place self.now.columns) }
    {
        match self.columns {
            Some(columns) => Ok(filled(columns, place)),
            None => Err(LoadReason::UnsetVariable),
        }
    }
}
