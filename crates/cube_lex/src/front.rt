ghost use Rattle.std.specs.Prelude.{◌≡◌, ◌≢◌, ◌+◌, ◌<◌, ◌≤◌, ◌^◌, ◌==◌, not, length, take, drop, Ok, Some, None};
ghost use Rattle.std.specs.Char.{is_ascii_digit};
ghost use Rattle.std.specs.List.{prefix_len};
ghost use Rattle.cube_lex.specs.Bytes.{Begins, is_white, is_line_end, is_quote, starts_word, is_word_byte};
ghost use Rattle.cube_lex.specs.Inside.Front.{IsFront, IsFractionLen};
ghost use Rattle.cube_lex.specs.Parts.{IsPart, Stands};
ghost use Rattle.cube_lex.specs.declared.token.Kind.TheVariants.{Number};

use crate::fault::LexFault;
use crate::quoted::{QUOTE, QuoteEnd, quote_end};
use crate::signs::sign_len;
use crate::token::Kind;

/// How many bytes a token may have.
const MAX_TOKEN_BYTES: usize = 1024;

/// What a text begins with: a token of a kind, or white space or a comment, which have none; and what follows.
#[derive(Clone, Copy)]
pub struct Front<'a> {
    pub kind: Option<Kind>,
    pub bytes: &'a [u8],
    pub after: &'a [u8],
}

fn is_white(byte: u8) -> bool
    ensures { result ≡ is_white byte }
{
    byte == b' ' || byte == b'\t' || byte == b'\r' || byte == b'\n'
}

fn starts_word(byte: u8) -> bool
    ensures { result ≡ starts_word byte }
{
    byte.is_ascii_alphabetic() || byte == b'_'
}

fn is_word_byte(byte: u8) -> bool
    ensures { result ≡ is_word_byte byte }
{
    byte.is_ascii_alphanumeric() || byte == b'_'
}

fn white_len(bytes: &[u8]) -> usize
    ensures { result ≡ prefix_len is_white bytes.now }
{
    bytes.iter().take_while(|byte| is_white(**byte)).count()
}

fn line_len(bytes: &[u8]) -> usize
    ensures { result ≡ prefix_len (λ b. not (is_line_end b)) bytes.now }
{
    bytes.iter().take_while(|byte| **byte != b'\n').count()
}

fn word_len(bytes: &[u8]) -> usize
    ensures { result ≡ prefix_len is_word_byte bytes.now }
{
    bytes.iter().take_while(|byte| is_word_byte(**byte)).count()
}

fn digits_len(bytes: &[u8]) -> usize
    ensures { result ≡ prefix_len is_ascii_digit bytes.now }
{
    bytes
        .iter()
        .take_while(|byte| byte.is_ascii_digit())
        .count()
}

/// The length of a point and digits at the front, or 0.
#[tactic(auto, using(crate::proofs::Runs::prefix_within))]
fn fraction_len(bytes: &[u8]) -> usize
    ensures { IsFractionLen bytes.now result }
{
    if bytes.is_empty() || bytes[0] != b'.' {
        return 0;
    }
    let (_, fraction) = bytes.split_at(1);
    let digits = digits_len(fraction);
    if digits == 0 { 0 } else { digits + 1 }
}

#[tactic(auto, using(crate::proofs::Runs::prefix_within))]
fn number_len(bytes: &[u8]) -> usize
    requires { Begins is_ascii_digit bytes.now }
    ensures within { result ≤ length bytes.now }
    ensures stands { Stands Number (take result bytes.now) (drop result bytes.now) }
{
    let whole = digits_len(bytes);
    let (_, after) = bytes.split_at(whole);
    whole + fraction_len(after)
}

/// The first bytes of the rest as white space or a comment.
fn blank(rest: &[u8], len: usize) -> Front<'_>
    requires within { len ≤ length rest.now }
    requires part { IsPart None (take len rest.now) (drop len rest.now) }
    ensures { IsFront rest.now 0 (Ok result) }
{
    let (bytes, after) = rest.split_at(len);
    Front {
        kind: None,
        bytes,
        after,
    }
}

/// The first bytes of the rest as a token, if they aren't too many.
fn token(kind: Kind, rest: &[u8], len: usize, at: usize) -> Result<Front<'_>, LexFault>
    requires within { len ≤ length rest.now }
    requires stands { Stands kind (take len rest.now) (drop len rest.now) }
    ensures { IsFront rest.now at result }
{
    let (bytes, after) = rest.split_at(len);
    if len > MAX_TOKEN_BYTES {
        return Err(LexFault::TooLong(at));
    }
    Ok(Front {
        kind: Some(kind),
        bytes,
        after,
    })
}

fn quoted_front(rest: &[u8], at: usize) -> Result<Front<'_>, LexFault>
    requires opens { Begins is_quote rest.now }
    requires room { at + length rest.now < 2 ^ 63 }
    ensures { IsFront rest.now at result }
{
    let (_, bytes) = rest.split_at(1);
    match quote_end(bytes) {
        QuoteEnd::Closed(place) => token(Kind::Text, rest, place + 2, at),
        QuoteEnd::Forbidden(place) => Err(LexFault::BadByte(at + 1 + place)),
        QuoteEnd::Open => Err(LexFault::OpenQuote(at)),
    }
}

/// What the rest of a text begins with, at the offset `at`.
#[tactic(auto, using(crate::proofs::Runs::prefix_within))]
pub fn front_of(rest: &[u8], at: usize) -> Result<Front<'_>, LexFault>
    requires nonempty { 0 < length rest.now }
    requires room { at + length rest.now < 2 ^ 63 }
    ensures { IsFront rest.now at result }
{
    let first = rest[0];
    if is_white(first) {
        Ok(blank(rest, white_len(rest)))
    } else if first == b'#' {
        Ok(blank(rest, line_len(rest)))
    } else if starts_word(first) {
        token(Kind::Word, rest, word_len(rest), at)
    } else if first.is_ascii_digit() {
        token(Kind::Number, rest, number_len(rest), at)
    } else if first == QUOTE {
        quoted_front(rest, at)
    } else if let Some(len) = sign_len(rest) {
        token(Kind::Sign, rest, len, at)
    } else {
        Err(LexFault::BadByte(at))
    }
}
