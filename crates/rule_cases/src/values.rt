use crate::refusal::Refusal;
use cube_fixed::{Value, print};
use std::alloc::Global;

/// How a value is printed.
pub fn value_text(alloc: Global, value: Value) -> Result<String, Refusal> {
    let mut text = Vec::new(alloc);
    print(alloc, value, &mut text)?;
    match String::from_utf8(text) {
        Ok(text) => Ok(text),
        Err(_) => Err(Refusal::Memory),
    }
}
