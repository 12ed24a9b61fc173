use crate::answers::{Answer, Lines, refused, shown};
use cube_fixed::{NumberFault, Value};
use dim_name::Name;
use std::alloc::{AllocError, Global};

/// The key of each name, a name a line, or why it is none.
pub fn names(alloc: Global, text: &[u8]) -> Result<Answer, AllocError> {
    let mut lines = Lines::new(alloc);
    for line in shown(text).lines() {
        match Name::new(alloc, line.as_bytes()) {
            Ok(name) => lines.add(&(shown(name.shown()), shown(name.key()))),
            Err(fault) => lines.add(&fault),
        }
    }
    lines.answer()
}

/// The result of each operation, an operation a line: a word and its numbers.
pub fn numbers(alloc: Global, text: &[u8]) -> Result<Answer, AllocError> {
    let mut out = Vec::new(alloc);
    for line in shown(text).lines() {
        out.extend_from_slice(&result_of(alloc, line)?.into_bytes())?;
        out.push(b'\n')?;
    }
    Ok(Answer::Printed(out))
}

fn result_of(alloc: Global, line: &str) -> Result<Answer, AllocError> {
    let (word, numbers) = line.split_once(' ').unwrap_or((line, ""));
    let (first, second) = numbers.split_once(' ').unwrap_or((numbers, "0"));
    match (value(first), value(second)) {
        (Ok(a), Ok(b)) if word == "compare" => refused(alloc, &cube_fixed::compare(a, b)),
        (Ok(a), Ok(b)) => {
            let mut out = Vec::new(alloc);
            cube_fixed::print(alloc, computed(word, a, b), &mut out)?;
            Ok(Answer::Printed(out))
        }
        (Err(fault), _) | (_, Err(fault)) => refused(alloc, &fault),
    }
}

fn value(text: &str) -> Result<Value, NumberFault> {
    if text == "#OVER" {
        return Ok(Value::Over);
    }
    Ok(Value::Num(cube_fixed::read(text.as_bytes())?))
}

// The result of an operation; any other word gives its first number, as `read` does.
fn computed(word: &str, a: Value, b: Value) -> Value {
    match word {
        "add" => cube_fixed::add(a, b),
        "sub" => cube_fixed::sub(a, b),
        "mul" => cube_fixed::mul(a, b),
        "div" => cube_fixed::div(a, b),
        "div_safe" => cube_fixed::div_safe(a, b),
        "max" => cube_fixed::max(a, b),
        "min" => cube_fixed::min(a, b),
        "round" => cube_fixed::round(a),
        "floor" => cube_fixed::floor(a),
        "abs" => cube_fixed::abs(a),
        "sign" => cube_fixed::sign(a),
        _ => a,
    }
}
