ghost use Rattle.std.specs.Prelude.{◌≡◌, map, IfSome};
ghost use Rattle.std.specs.Option.{option_copied};
ghost use Rattle.cube_fixed.specs.Range.{IsInRange};
ghost use Rattle.bind_arguments.specs.Written as written;
ghost use Rattle.bind_arguments.specs.Written.{part_in, place_of_part, relative_at, relative_called};
ghost use Rattle.bind_arguments.specs.Inside.Reading.{text_of_part, whole_of_part, shift_in};

use crate::relative::Relative;
use cube_fixed::{Money, UNIT};
use rule_tree::{Tree, TreeOp};

/// The text that a formula is, if it is one.
pub(crate) fn text_of(tree: &Tree) -> Option<&[u8]>
    ensures { option_copied result ≡ text_of_part (part_in tree.now) }
{
    match tree {
        Tree::Text(text) => Some(text.as_slice()),
        _ => None,
    }
}

/// A number in units, if it is whole.
pub(crate) fn whole_number(number: Money) -> Option<i64>
    ensures value { result ≡ written.whole_number number }
    ensures small { IfSome result IsInRange }
{
    let millionths = number.millionths();
    let unit = UNIT as i64;
    if millionths.rem_euclid(unit) == 0 {
        Some(millionths.div_euclid(unit))
    } else {
        None
    }
}

/// The whole number that a formula is, if it is one.
pub(crate) fn whole_of(tree: &Tree) -> Option<i64>
    ensures value { result ≡ whole_of_part (part_in tree.now) }
    ensures small { IfSome result IsInRange }
{
    match tree {
        Tree::Number(number) => whole_number(*number),
        _ => None,
    }
}

/// What `+` or `-` and this right side add to an index.
pub(crate) fn shift_of(op: TreeOp, right: &Tree) -> Option<i64>
    ensures value { result ≡ shift_in op (part_in right.now) }
    ensures small { IfSome result IsInRange }
{
    match op {
        TreeOp::Add => whole_of(right),
        TreeOp::Sub => match whole_of(right) {
            Some(number) => Some(-number),
            None => None,
        },
        _ => None,
    }
}

// The place, from 0, of the whole number from 1 that a formula is, if it is one.
fn place_of(tree: &Tree) -> Option<u64>
    ensures { result ≡ place_of_part (part_in tree.now) }
{
    match whole_of(tree) {
        Some(number) => if number < 1 {
            None
        } else {
            Some((number - 1) as u64)
        },
        None => None,
    }
}

// What `ELPAR` and `ELCOMP` ask for.
fn relative_at(function: &[u8], place: u64) -> Option<Relative>
    ensures { result ≡ relative_at function.now place }
{
    if function == b"ELPAR".as_slice() {
        Some(Relative::Parent(place))
    } else if function == b"ELCOMP".as_slice() {
        Some(Relative::Component(place))
    } else {
        None
    }
}

/// What a function asks for that has these arguments behind the element.
pub(crate) fn relative_called(function: &[u8], behind: &[Tree]) -> Option<Relative>
    ensures { result ≡ relative_called function.now (map part_in behind.now) }
{
    match behind {
        [] => if function == b"DNEXT".as_slice() {
            Some(Relative::NextLeaf)
        } else {
            None
        },
        [place] => match place_of(place) {
            Some(place) => relative_at(function, place),
            None => None,
        },
        _ => None,
    }
}
