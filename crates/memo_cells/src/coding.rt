ghost use Rattle.std.specs.Prelude.{◌≡◌, ◌<◌};
ghost use Rattle.memo_cells.specs.Values.{value_in};

use cube_fixed::{Money, Value};

// The largest count of millionths of a number, on either side of 0.
const LIMIT: u64 = 9_000_000_000_000_000_000;

// The word of a number is one more than its millionths and the limit, so that it is never 0.
const SHIFT: u64 = LIMIT + 1;

// The word of a result that is out of range: the next one after those of all numbers.
const OVER: u64 = LIMIT + SHIFT + 1;

/// The word that a value is kept as.
pub(crate) fn word_of(value: &Value) -> u64
    ensures some { 0 < result }
    ensures value { value_in result ≡ value.now }
{
    match value {
        Value::Num(number) => {
            let millionths = number.millionths();
            if millionths < 0 {
                SHIFT - millionths.unsigned_abs()
            } else {
                SHIFT + millionths as u64
            }
        }
        Value::Over => OVER,
    }
}

/// The value that is kept as this word.
pub(crate) fn value_of(word: u64) -> Value
    ensures { result ≡ value_in word }
{
    if word >= OVER {
        return Value::Over;
    }
    let millionths = i128::from(word) - i128::from(SHIFT);
    match Money::of(millionths as i64) {
        Some(number) => Value::Num(number),
        None => Value::Over,
    }
}
