ghost use Rattle.std.specs.Prelude.{◌≡◌, ◌<◌};

use cube_fixed::{Money, Steps, Sum, Value};
use cube_lex::{Kind, LexFault, tokens, unquoted};
use cube_space::{CubeShape, Space, SpaceFault};
use dim_name::Name;
use lists::ListOf;
use std::alloc::{AllocError, Global};
use std::marker::Brand;
use std::sync::ledger::{Blank, Ledger};
use std::test::Fail;

fn money(millionths: i64) -> Value {
    Value::Num(Money::of(millionths).unwrap_or(Money::ZERO))
}

// A sum may leave the range on its way, and comes back; an Over stays.
fn sums() -> [Value; 3] {
    let mut sum = Sum::new();
    sum.add(1, money(9_000_000_000_000_000_000));
    sum.add(2, money(9_000_000_000_000_000_000));
    let beyond = sum.value();
    sum.add(-3, money(9_000_000_000_000_000_000));
    sum.add(1, money(500_000));
    sum.add(0, Value::Over);
    let back = sum.value();
    sum.add(-1, Value::Over);
    [beyond, back, sum.value()]
}

fn three_steps<L: Ledger>(blank: Blank)
    requires name { blank.name ≡ L.name }
    requires parts { blank.parts ≡ L.parts }
    requires some { 0 < L.parts }
{
    let mut steps = Steps::<L>::begin(blank);
    steps.tick();
    steps.tick();
    steps.tick();
}

fn count_steps() {
    three_steps::<Brand>(Blank::new(1));
}

fn list_gives_its_elements_back(alloc: Global) -> Result<bool, AllocError> {
    let list = ListOf::new([3u32, 1, 3].to_vec(alloc)?);
    let shown = list.as_slice() == [3, 1, 3].as_slice();
    Ok(shown && list.into_vec().as_slice() == [3, 1, 3].as_slice())
}

// A word and a quoted text are looked up by their places, and nothing stands behind them.
fn tokens_are_looked_up(alloc: Global) -> Result<bool, LexFault> {
    let found = tokens(alloc, b"A\n 'o''clock'")?;
    let (Some(word), Some(text), None) = (found.get(0), found.get(1), found.get(2)) else {
        return Ok(false);
    };
    let text = unquoted(alloc, text.piece)?;
    Ok(!found.is_empty() && word.kind == Kind::Word && text.as_slice() == b"o'clock".as_slice())
}

// A cube of no dimension is refused.
fn cube_has_dimensions(alloc: Global, name: Name) -> Result<bool, AllocError> {
    let mut cubes = Vec::new(alloc);
    cubes.push(CubeShape {
        name,
        dims: ListOf::new(Vec::new(alloc)),
    })?;
    let space = Space::new(alloc, Vec::new(alloc), cubes);
    Ok(matches!(space, Err(SpaceFault::DimensionCount(0))))
}

#[test]
fn sums_steps_lists_tokens_and_cubes(rt: HostRuntime) -> Result<(), Fail> {
    let alloc = rt.alloc();
    count_steps();
    assert_eq!(rt; sums(), [Value::Over, money(500_000), Value::Over]);
    assert!(rt; list_gives_its_elements_back(alloc)?);
    assert!(rt; tokens_are_looked_up(alloc)?);
    assert!(rt; cube_has_dimensions(alloc, Name::new(alloc, b"Plan")?)?);
    Ok(())
}
