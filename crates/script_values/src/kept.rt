use cube_fixed::Value;
use lists::ListOf;

/// What a variable holds.
#[derive(Drop)]
pub enum Kept {
    Number(Value),
    Text(ListOf<u8>),
}
