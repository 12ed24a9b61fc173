ghost use Rattle.std.specs.Prelude.{◌≡◌, ◌≤◌, length, slice_index, count_by, IfOk, IsTrue};
ghost use Rattle.script_values.specs.Characters as characters;
ghost use Rattle.script_values.specs.Inside.Bytewise as bytewise;

use cube_fixed::{Value, add};
use memchr::memmem::find;
use rule_laws::Rel;
use std::alloc::{AllocError, Global};

/// A count as a number of whole units, which is `Over` where it is too large for one.
#[tactic(auto, unfolding(crate::specs::Characters::units_of))]
pub(crate) fn units(count: usize) -> Value
    ensures { result ≡ characters.units_of count }
{
    Value::of_units(count as u64)
}

/// The least byte of UTF-8 that goes on with a character.
const FIRST_INSIDE: u8 = 128;

/// The greatest one.
const LAST_INSIDE: u8 = 191;

/// Whether a byte begins a character wherever it stands.
fn begins_character(byte: u8) -> bool
    ensures { result ≡ characters.begins_character byte }
{
    byte < FIRST_INSIDE || LAST_INSIDE < byte
}

/// How many characters begin among bytes behind the first one.
fn count_begun(bytes: &[u8]) -> usize
    ensures count { result ≡ count_by characters.begins_character bytes.now }
    ensures few { result ≤ length bytes.now }
{
    bytes.iter().filter(|byte| begins_character(**byte)).count()
}

/// How many characters a text has.
#[tactic(auto, unfolding(crate::specs::Characters::character_count))]
pub(crate) fn character_count(text: &[u8]) -> usize
    ensures count { result ≡ characters.character_count text.now }
    ensures few { result ≤ length text.now }
{
    match text {
        [] => 0,
        [_, behind @ ..] => count_begun(behind) + 1,
    }
}

/// The first place in a text, from 1, where a part stands that begins a character; 0 where it stands nowhere.
#[tactic(auto, using(crate::proofs::Places::found_at, crate::proofs::Places::found_nowhere))]
fn place_found(part: &[u8], text: &[u8]) -> usize
    requires some { 1 ≤ length part.now }
    requires opens { IsTrue (characters.begins_character (slice_index part.now 0)) }
    ensures { result ≡ characters.place_in part.now text.now }
{
    match find(text, part) {
        Some(at) => character_count(&text[..at]) + 1,
        None => 0,
    }
}

/// The first place in a text, from 1, where a part stands; 0 where it stands nowhere. It takes time for the sum of both
/// lengths.
#[tactic(auto, unfolding(crate::specs::Characters::place_in), using(crate::proofs::Places::found_inside))]
pub(crate) fn place_in(part: &[u8], text: &[u8]) -> usize
    ensures { result ≡ characters.place_in part.now text.now }
{
    match part {
        [] => 1,
        [first, ..] if begins_character(*first) => place_found(part, text),
        // No character begins so but the first one of a text.
        [_, ..] => usize::from(text.starts_with(part)),
    }
}

/// Whether a byte begins a character behind so many.
fn begins_behind(count: usize, byte: u8) -> bool
    ensures { result ≡ bytewise.begins_behind count byte }
{
    count == 0 || begins_character(byte)
}

/// Whether a place is at `start` or behind it, and before the one that is `count` behind `start`.
#[tactic(auto, unfolding(crate::specs::Characters::is_within))]
fn is_within(start: &Value, count: &Value, place: usize) -> bool
    ensures { result ≡ characters.is_within start.now count.now place }
{
    let first = *start;
    if !Rel::AtMost.holds(first, units(place)) {
        return false;
    }
    let (first, many) = (*start, *count);
    Rel::Less.holds(units(place), add(first, many))
}

/// The characters of a text whose places, from 1, are within `start` and `count`.
#[tactic(auto, unfolding(crate::specs::Characters::cut_out), using(crate::proofs::CutOut::cut_whole))]
pub(crate) fn cut_out(
    alloc: Global,
    text: &[u8],
    start: &Value,
    count: &Value,
) -> Result<Vec<u8>, AllocError>
    ensures { IfOk result (λ bytes. bytes.items ≡ characters.cut_out text.now start.now count.now) }
{
    let mut place = 0;
    let mut chosen = Vec::new(alloc);
    'each: for byte in text {
        if begins_behind(place, *byte) {
            place += 1;
        }
        if is_within(start, count, place) {
            chosen.push(*byte)?;
        }
    }
    Ok(chosen)
}
