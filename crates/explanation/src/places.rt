ghost use Rattle.std.specs.Prelude.{◌≡◌, ◌≤◌, ◌+◌, length, take, drop, take_while, count_by};
ghost use Rattle.cube_lex.specs.Bytes.{is_line_end, line_at};
ghost use Rattle.explanation.specs.Places as places;

use cube_lex::mark_len;

/// How many bytes of a line are shown.
const MAX_SHOWN: usize = 200;

/// The bytes up to an offset.
#[tactic(auto, using(std::proofs::lemmas::List::take_min))]
pub(crate) fn up_to(bytes: &[u8], at: usize) -> &[u8]
    ensures { result.now ≡ take at bytes.now }
{
    let (front, _) = bytes.split_at(at.min(bytes.len()));
    front
}

/// The bytes from an offset on.
#[tactic(auto, using(std::proofs::lemmas::List::drop_min))]
pub(crate) fn from(bytes: &[u8], at: usize) -> &[u8]
    ensures { result.now ≡ drop at bytes.now }
{
    let (_, back) = bytes.split_at(at.min(bytes.len()));
    back
}

/// How many of these bytes stand behind their last line end.
pub(crate) fn line_part(bytes: &[u8]) -> usize
    ensures part { result ≡ places.line_part bytes.now }
    ensures few { result ≤ length bytes.now }
{
    bytes
        .iter()
        .rev()
        .take_while(|byte| **byte != b'\n')
        .count()
}

/// The bytes from the text's beginning, which the mark isn't, up to an offset.
pub(crate) fn front(text: &[u8], at: usize) -> &[u8]
    ensures bytes { result.now ≡ places.front text.now at }
    ensures few { length result.now ≤ length text.now }
    ensures short { length result.now ≤ at }
{
    from(up_to(text, at), mark_len(text))
}

/// The column of the byte at an offset, from 1.
pub(crate) fn column_at(text: &[u8], at: usize) -> usize
    ensures { result ≡ places.column_at text.now at }
{
    line_part(front(text, at)) + 1
}

/// The line of the byte at an offset, from 1.
pub(crate) fn line_at(text: &[u8], at: usize) -> usize
    ensures line { result ≡ line_at text.now at }
    ensures few { result ≤ at + 1 }
{
    1 + line_ends(up_to(text, at))
}

// How many lines end among the bytes.
fn line_ends(bytes: &[u8]) -> usize
    ensures ends { result ≡ count_by is_line_end bytes.now }
    ensures few { result ≤ length bytes.now }
{
    bytes.iter().filter(|byte| **byte == b'\n').count()
}

// How many bytes from the first on are shown of a line.
fn shown_len(bytes: &[u8]) -> usize
    ensures len { result ≡ length (take_while places.is_shown bytes.now) }
    ensures few { result ≤ length bytes.now }
{
    bytes
        .iter()
        .take_while(|byte| !(**byte == b'\n' || **byte == b'\r'))
        .count()
}

// The bytes up to the end of their line.
fn up_to_end(bytes: &[u8]) -> &[u8]
    ensures { result.now ≡ take_while places.is_shown bytes.now }
{
    let (shown, _) = bytes.split_at(shown_len(bytes));
    shown
}

/// Bytes up to the end of their line, as they are shown.
pub(crate) fn shown(bytes: &[u8]) -> &[u8]
    ensures { result.now ≡ places.shown bytes.now }
{
    up_to(up_to_end(bytes), MAX_SHOWN)
}

/// The line of the byte at an offset, as it is shown.
pub(crate) fn shown_line(text: &[u8], at: usize) -> &[u8]
    ensures { result.now ≡ places.shown_line text.now at }
{
    let begin = at.saturating_sub(line_part(front(text, at)));
    shown(from(text, begin))
}
