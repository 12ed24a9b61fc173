ghost use Rattle.std.specs.Prelude.{◌≡◌, ◌∷◌, [], ◌++◌, ℕ, IsTrue, OnOk, not, false, ◌&&◌};
ghost use Rattle.std.specs.Int.{is_negative};
ghost use Rattle.std.specs.List.{list_all};
ghost use Rattle.cube_lex.specs.Bytes;
ghost use Rattle.cube_lex.specs.Written.{Spaces, sign_token, text_token, word_token};
ghost use Rattle.rule_printer.specs.Inside.Separated.{separator};
ghost use Rattle.rule_printer.specs.Spelled.{is_word_text, money_token, current_token, dimension_spelled};
ghost use Rattle.rule_printer.specs.Spelled.{simple_spelled, listed_spelled, bracket_spelled, name_spelled};
ghost use Rattle.rule_printer.specs.Writable.{is_quotable, is_short_word, is_marked};
ghost use Rattle.rule_printer.specs.Writable.{is_writable_dimension, is_writable_simple};

use cube_fixed::{Money, Value};
use cube_lex::{write_number, write_quoted, write_sign, write_word};
use dim_name::Name;
use rule_tree::SimpleText;
use std::alloc::{AllocError, Global};

/// Writes a quoted text.
pub fn write_text(out: &mut Vec<u8>, bytes: &[u8]) -> Result<(), AllocError>
    requires { IsTrue (is_quotable bytes.now) }
    ensures { OnOk result (Spaces out.old.items out.new.items (text_token bytes.now ∷ [])) }
{
    write_quoted(out, bytes)
}

/// Writes a word of at most 1,024 bytes.
pub fn write_short_word(out: &mut Vec<u8>, word: &[u8]) -> Result<(), AllocError>
    requires { IsTrue (is_short_word word.now) }
    ensures { OnOk result (Spaces out.old.items out.new.items (word_token word.now ∷ [])) }
{
    write_word(out, word)
}

/// Writes a number that isn't negative.
pub fn write_money(alloc: Global, out: &mut Vec<u8>, money: Money) -> Result<(), AllocError>
    requires { is_negative money ≡ false }
    ensures { OnOk result (Spaces out.old.items out.new.items (money_token money ∷ [])) }
{
    // Asked for the range that every number has.
    let _millionths = money.millionths();
    let mut digits = Vec::new(alloc);
    cube_fixed::print(alloc, Value::Num(money), &mut digits)?;
    write_number(out, &digits)
}

// Whether the byte begins words.
fn starts_word(byte: u8) -> bool
    ensures { result ≡ Bytes.starts_word byte }
{
    byte.is_ascii_alphabetic() || byte == b'_'
}

// Whether the byte may stand in words.
fn is_word_byte(byte: u8) -> bool
    ensures { result ≡ Bytes.is_word_byte byte }
{
    byte.is_ascii_alphanumeric() || byte == b'_'
}

// Whether all may stand in words.
fn are_word_bytes(bytes: &[u8]) -> bool
    ensures { result ≡ list_all Bytes.is_word_byte bytes.now }
{
    bytes.iter().all(|byte| is_word_byte(*byte))
}

// Whether the bytes are a word.
fn is_word_text(bytes: &[u8]) -> bool
    ensures { result ≡ is_word_text bytes.now }
{
    if bytes.is_empty() {
        return false;
    }
    let (_, rest) = bytes.split_at(1);
    starts_word(bytes[0]) && are_word_bytes(rest)
}

/// Writes the dimension behind a `!`.
pub fn write_current(out: &mut Vec<u8>, dim: &[u8]) -> Result<(), AllocError>
    requires { IsTrue (is_marked dim.now) }
    ensures { OnOk result (Spaces out.old.items out.new.items (current_token dim.now ∷ [])) }
{
    if is_word_text(dim) {
        write_short_word(out, dim)
    } else {
        write_text(out, dim)
    }
}

/// Writes the `,` before an item of a list that isn't its first.
pub fn write_separator(out: &mut Vec<u8>, index: usize) -> Result<(), AllocError>
    ensures { OnOk result (Spaces out.old.items out.new.items (separator index)) }
{
    if index == 0 {
        Ok(())
    } else {
        write_sign(out, b",")
    }
}

/// Writes the dimension before a name.
pub fn write_dimension(out: &mut Vec<u8>, dim: &Option<Name>) -> Result<(), AllocError>
    requires { IsTrue (is_writable_dimension dim.now) }
    ensures { OnOk result (Spaces out.old.items out.new.items (dimension_spelled dim.now)) }
{
    match dim {
        None => Ok(()),
        Some(name) => {
            write_text(out, name.shown())?;
            write_sign(out, b":")
        }
    }
}

fn write_simple(out: &mut Vec<u8>, simple: &SimpleText) -> Result<(), AllocError>
    requires { IsTrue (is_writable_simple simple.now) }
    ensures { OnOk result (Spaces out.old.items out.new.items (simple_spelled simple.now)) }
{
    write_dimension(out, &simple.dim)?;
    write_text(out, simple.element.shown())
}

fn write_simples(out: &mut Vec<u8>, simples: &[SimpleText]) -> Result<(), AllocError>
    requires { IsTrue (list_all is_writable_simple simples.now) }
    ensures { OnOk result (Spaces out.old.items out.new.items (listed_spelled simple_spelled simples.now)) }
{
    for index in 0..simples.len() {
        write_separator(out, index)?;
        write_simple(out, &simples[index])?;
    }
    Ok(())
}

/// Writes a bracket.
pub fn write_bracket(out: &mut Vec<u8>, simples: &[SimpleText]) -> Result<(), AllocError>
    requires { IsTrue (list_all is_writable_simple simples.now) }
    ensures { OnOk result (Spaces out.old.items out.new.items (bracket_spelled simples.now)) }
{
    write_sign(out, b"[")?;
    write_simples(out, simples)?;
    write_sign(out, b"]")
}

/// Writes names.
pub fn write_names(out: &mut Vec<u8>, names: &[Name]) -> Result<(), AllocError>
    requires { IsTrue (list_all is_quotable names.now) }
    ensures { OnOk result (Spaces out.old.items out.new.items (listed_spelled name_spelled names.now)) }
{
    for index in 0..names.len() {
        write_separator(out, index)?;
        write_text(out, names[index].shown())?;
    }
    Ok(())
}
