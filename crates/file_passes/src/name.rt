ghost use Rattle.std.specs.Prelude.{◌≡◌, IfOk, string_bytes};

use std::alloc::{AllocError, Global};

/// The name of a file as a text has it. The text says that it is UTF-8.
pub fn file_name(alloc: Global, bytes: &[u8]) -> Result<String, AllocError>
    ensures { IfOk result (λ name. string_bytes name ≡ bytes.now) }
{
    match str::from_utf8(bytes) {
        Ok(name) => String::from_str(alloc, name),
        Err(_) => Err(AllocError),
    }
}
