use std::alloc::AllocError;

/// Adds a text to what is written, with `> ` before each of its lines.
pub fn write_answer(written: &mut Vec<u8>, text: &[u8]) -> Result<(), AllocError> {
    written.extend_from_slice(b"> ")?;
    for byte in text.strip_suffix(b"\n").unwrap_or(text) {
        written.push(*byte)?;
        if *byte == b'\n' {
            written.extend_from_slice(b"> ")?;
        }
    }
    Ok(written.push(b'\n')?)
}
