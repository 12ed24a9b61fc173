use crate::text::Text;
use cube_fixed::Value;

/// What an expression gives.
#[derive(Drop)]
pub enum Datum<'a> {
    Number(Value),
    Text(Text<'a>),
    /// A column of the record, with the byte between units and decimals where it is read as a number.
    Column(Text<'a>, u8),
    /// What a condition gives.
    Truth(bool),
}
