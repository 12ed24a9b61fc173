ghost use Rattle.std.specs.Prelude.{◌≡◌, ◌++◌, ◌<◌, ◌≤◌, take, IfOk, OnOk, OnErr};
ghost use Rattle.cube_fixed.specs.Range.{unit};
ghost use Rattle.cube_fixed.specs.Text.{digits_in, decimals_text, printed_in, fixed_text};
ghost use Rattle.cube_fixed.specs.declared.value.Value.TheVariants.{Num};

use crate::money::{Money, UNIT};
use crate::places::{DECIMALS, decimals_for, round_at};
use crate::printing::units_text;
use crate::value::Value;
use std::alloc::{AllocError, Global};

/// Appends so many of the six decimals of a count of millionths below one unit.
fn push_digits(text: &mut Vec<u8>, millionths: u64, count: u32) -> Result<(), AllocError>
    requires part { millionths < unit }
    requires count { count ≤ 6 }
    ensures { OnOk result (text.new.items ≡ text.old.items ++ take count (digits_in 6 millionths)) }
{
    let mut rest = millionths;
    let mut left = count;
    for place in [100_000, 10_000, 1_000, 100, 10, 1] {
        if left == 0 {
            break;
        }
        text.push(b'0' + (rest / place) as u8)?;
        rest %= place;
        left -= 1;
    }
    Ok(())
}

/// Appends the point and so many decimals, or nothing for none.
fn push_decimals(text: &mut Vec<u8>, millionths: u64, count: u32) -> Result<(), AllocError>
    requires part { millionths < unit }
    requires count { count ≤ 6 }
    ensures { OnOk result (text.new.items ≡ text.old.items ++ decimals_text count millionths) }
{
    if count == 0 {
        return Ok(());
    }
    text.push(b'.')?;
    push_digits(text, millionths, count)
}

#[tactic(auto, unfolding(crate::specs::Text::printed_in))]
fn text_in(alloc: Global, number: Money, count: u32) -> Result<Vec<u8>, AllocError>
    requires { count ≤ 6 }
    ensures { IfOk result (λ text. text.items ≡ printed_in count (Num number)) }
{
    let mut text = units_text(alloc, number)?;
    push_decimals(&mut text, number.millionths().unsigned_abs() % UNIT, count)?;
    Ok(text)
}

/// Appends the text of a value, rounded to `decimals` decimals and written with them, zeros too. `decimals` is taken as
/// its whole part, at least none and at most six.
#[tactic(auto, unfolding(crate::specs::Text::printed_in))]
pub fn print_fixed(
    alloc: Global,
    value: Value,
    decimals: Value,
    out: &mut Vec<u8>,
) -> Result<(), AllocError>
    ensures ok { OnOk result (out.new.items ≡ out.old.items ++ fixed_text value decimals) }
    ensures err { OnErr result (out.new.items ≡ out.old.items) }
{
    let count = decimals_for(decimals);
    match round_at(DECIMALS - count, value) {
        Value::Num(number) => {
            let text = text_in(alloc, number, count)?;
            out.extend_from_slice(&text)
        }
        Value::Over => out.extend_from_slice(b"#OVER"),
    }
}
