use std::alloc::AllocError;

/// Adds what a line of a case spells to a text, and says whether it spells anything:
///
/// - `|A LINE` this line, with its line end;
/// - `.A PART` the same without a line end;
/// - `x 00 0D EF` these bytes;
/// - `1000 |ELEMENT {n};` and `1000 .ELEMENT {n};` the line or the part so many times, `{n}` in it being 1, 2, 3 ..
pub fn spell(line: &str, text: &mut Vec<u8>) -> Result<bool, AllocError> {
    if let Some(pairs) = line.strip_prefix("x ") {
        return add_bytes(pairs, text);
    }
    if let Some((times, piece)) = line.split_once(' ')
        && let Ok(times) = times.parse::<u32>()
    {
        return add_times(times, piece, text);
    }
    add_piece(line, text)
}

// Bytes as pairs of hexadecimal digits.
fn add_bytes(pairs: &str, text: &mut Vec<u8>) -> Result<bool, AllocError> {
    for pair in pairs.split(' ') {
        let Ok(byte) = u8::from_str_radix(pair, 16) else {
            return Ok(false);
        };
        text.push(byte)?;
    }
    Ok(true)
}

fn add_times(times: u32, piece: &str, text: &mut Vec<u8>) -> Result<bool, AllocError> {
    let alloc = *text.allocator();
    for number in 1..=times {
        let number = number.to_string(alloc)?;
        let piece = piece.replace(alloc, "{n}", &number)?;
        if !add_piece(&piece, text)? {
            return Ok(false);
        }
    }
    Ok(true)
}

// A line or a part of one.
fn add_piece(piece: &str, text: &mut Vec<u8>) -> Result<bool, AllocError> {
    if let Some(line) = piece.strip_prefix('|') {
        text.extend_from_slice(line.as_bytes())?;
        text.push(b'\n')?;
        return Ok(true);
    }
    let Some(part) = piece.strip_prefix('.') else {
        return Ok(false);
    };
    text.extend_from_slice(part.as_bytes())?;
    Ok(true)
}
