ghost use Rattle.std.specs.Prelude.{◌≡◌, length, take_while};
ghost use Rattle.cube_lex.specs.Bytes.{is_word_byte};
ghost use Rattle.explanation.specs.Limits as limits;

use crate::places::from;
use file_passes::Cause;

// How many bytes of a word come first.
fn word_len(bytes: &[u8]) -> usize
    ensures { result ≡ length (take_while is_word_byte bytes.now) }
{
    bytes
        .iter()
        .take_while(|byte| byte.is_ascii_alphanumeric() || **byte == b'_')
        .count()
}

/// The word at an offset of a text, or none.
pub(crate) fn word_at(text: &[u8], at: usize) -> &[u8]
    ensures { result.now ≡ limits.word_at text.now at }
{
    let bytes = from(text, at);
    let (word, _) = bytes.split_at(word_len(bytes));
    word
}

// How many there may be of what this word begins.
fn most_of(word: &[u8]) -> &'static [u8]
    ensures { result.now ≡ limits.most_of word.now }
{
    if word.eq_ignore_ascii_case(b"DIM") {
        b"256 dimensions"
    } else if word.eq_ignore_ascii_case(b"CUBE") {
        b"64 cubes"
    } else if word.eq_ignore_ascii_case(b"SCRIPT") {
        b"256 scripts"
    } else if word.eq_ignore_ascii_case(b"N") {
        b"100000 elements"
    } else if word.eq_ignore_ascii_case(b"C") {
        b"100000 elements, 1000000 components"
    } else if word.is_empty() {
        b"1000 statements, 1000 feeders"
    } else {
        b"65536 commands"
    }
}

/// The limit that is passed, where a cause is that of one; else nothing.
pub(crate) fn limit_of(cause: &Cause, word: &[u8]) -> &'static [u8]
    ensures { result.now ≡ limits.limit_of cause.now word.now }
{
    match cause {
        Cause::TooMany => most_of(word),
        Cause::WeightRange => b"1000000",
        Cause::CoefficientTooLarge => b"1000000000",
        Cause::TooManyPairs(_) => b"4000000",
        Cause::DimensionCount => b"2 to 16 dimensions",
        Cause::CubeTooLarge => b"4611686018427387904 cells",
        Cause::ModelTooLarge => b"4611686018427387904 cells",
        Cause::WeightProduct => b"1000000000",
        Cause::TooDeep => b"32 open at once, 1000 operands",
        Cause::TooHigh(_) => b"65536",
        Cause::DenseTooLarge(_) => b"1000000 leaf cells",
        Cause::FedLimit(_) => b"4000000 fed cells",
        _ => b"",
    }
}
