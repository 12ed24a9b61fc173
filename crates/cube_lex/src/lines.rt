ghost use Rattle.std.specs.Prelude.{◌≡◌, count_by};
ghost use Rattle.cube_lex.specs.Bytes.{is_line_end};
ghost use Rattle.cube_lex.specs.Reading.{mark_len};

/// How many bytes a text may have.
pub const MAX_TEXT_BYTES: usize = 1 << 30;

const MARK: [u8; 3] = [0xEF, 0xBB, 0xBF];

/// How many bytes of a byte order mark the text begins with.
pub fn mark_len(text: &[u8]) -> usize
    ensures { result ≡ mark_len text.now }
{
    if text.starts_with(&MARK) { 3 } else { 0 }
}

/// How many lines end among the bytes.
pub fn line_ends(bytes: &[u8]) -> usize
    ensures { result ≡ count_by is_line_end bytes.now }
{
    bytes.iter().filter(|byte| **byte == b'\n').count()
}
