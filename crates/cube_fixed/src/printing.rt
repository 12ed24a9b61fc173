ghost use Rattle.std.specs.Prelude.{◌≡◌, ◌++◌, ◌<◌, IfOk, OnOk, OnErr};
ghost use Rattle.cube_fixed.specs.declared.value.Value.TheVariants.{Num};
ghost use Rattle.cube_fixed.specs.Range.{unit};
ghost use Rattle.cube_fixed.specs.Text.{units_text, fraction_text, printed};

use crate::money::{Money, UNIT};
use crate::value::Value;
use std::alloc::{AllocError, Global};

/// Appends the text of a value: a number with `-` where it is negative, its whole part without leading zeros and its
/// decimals without trailing zeros; and `#OVER`.
#[tactic(auto, unfolding(crate::specs::Text::printed))]
pub fn print(alloc: Global, v: Value, out: &mut Vec<u8>) -> Result<(), AllocError>
    ensures ok { OnOk result (out.new.items ≡ out.old.items ++ printed v) }
    ensures err { OnErr result (out.new.items ≡ out.old.items) }
{
    match v {
        Value::Num(number) => {
            let text = text_of(alloc, number)?;
            out.extend_from_slice(&text)
        }
        Value::Over => out.extend_from_slice(b"#OVER"),
    }
}

/// The sign of a number, and its whole units.
pub(crate) fn units_text(alloc: Global, number: Money) -> Result<Vec<u8>, AllocError>
    ensures { IfOk result (λ text. text.items ≡ units_text number) }
{
    let millionths = number.millionths();
    let sign = if millionths < 0 { "-" } else { "" };
    let whole = millionths.unsigned_abs() / UNIT;
    Ok(format!(in alloc; "{sign}{whole}")?.into_bytes())
}

#[tactic(auto, unfolding(crate::specs::Text::printed))]
fn text_of(alloc: Global, number: Money) -> Result<Vec<u8>, AllocError>
    ensures { IfOk result (λ text. text.items ≡ printed (Num number)) }
{
    let mut text = units_text(alloc, number)?;
    push_fraction(&mut text, number.millionths().unsigned_abs() % UNIT)?;
    Ok(text)
}

/// Appends the point and the decimals of a count of millionths below one unit, or nothing for 0.
#[tactic(auto, unfolding(crate::specs::Text::fraction_text))]
fn push_fraction(text: &mut Vec<u8>, millionths: u64) -> Result<(), AllocError>
    requires { millionths < unit }
    ensures { OnOk result (text.new.items ≡ text.old.items ++ fraction_text millionths) }
{
    if millionths == 0 {
        return Ok(());
    }
    text.push(b'.')?;
    let mut rest = millionths;
    for place in [100_000, 10_000, 1_000, 100, 10, 1] {
        if rest == 0 {
            break;
        }
        text.push(b'0' + (rest / place) as u8)?;
        rest %= place;
    }
    Ok(())
}
