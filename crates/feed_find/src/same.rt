ghost use Rattle.std.specs.Prelude.{◌≡◌, ◌<◌, length, nat_eq};
ghost use Rattle.std.specs.Option.{option_eq};
ghost use Rattle.std.specs.Cmp.Lexicographic.{pointwise};
ghost use Rattle.rule_model.specs.Conditions.{IsReference};
ghost use Rattle.feed_find.specs.Added.{IsFound};
ghost use Rattle.feed_find.specs.Views.{IsFrom};
ghost use Rattle.feed_find.specs.Found.{same_arg, same_reference, same_found};

use crate::chosen::FoundFeeder;
use cube_space::{Space, axis};
use feed_sources::is_same_area;
use rule_laws::{Arg, ElementMap, Reference};

// Whether two maps of so many elements send each to the same.
fn same_map(one: &ElementMap, other: &ElementMap, size: u32) -> bool
    requires one { length one.now ≡ size }
    requires other { length other.now ≡ size }
    ensures { result ≡ pointwise (option_eq nat_eq) one.now other.now }
{
    if one.is_same(other) {
        return true;
    }
    'each: for element in 0..size {
        if one.get(element as usize) != other.get(element as usize) {
            return false;
        }
    }
    true
}

// Whether two arguments of references from a cube are the same.
fn same_arg(space: &Space, cube: u32, one: &Arg, other: &Arg) -> bool
    requires cube { cube < length space.now.cubes }
    requires one { IsFrom space.now cube one.now }
    requires other { IsFrom space.now cube other.now }
    ensures { result ≡ same_arg one.now other.now }
{
    match (one, other) {
        (Arg::Fixed(element), Arg::Fixed(its)) => element == its,
        (Arg::Moved { from, to }, Arg::Moved { from: its, to: map }) => {
            if from != its {
                return false;
            }
            same_map(to, map, axis(space, cube, *from).len())
        }
        _ => false,
    }
}

// Whether two references from a cube are the same.
fn same_reference(space: &Space, cube: u32, one: &Reference, other: &Reference) -> bool
    requires cube { cube < length space.now.cubes }
    requires one { IsReference space.now cube one.now }
    requires other { IsReference space.now cube other.now }
    ensures { result ≡ same_reference one.now other.now }
{
    let args = one.args.as_slice();
    let its = other.args.as_slice();
    if one.cube != other.cube {
        return false;
    }
    if args.len() != its.len() {
        return false;
    }
    'each: for place in 0..args.len() {
        if !same_arg(space, cube, &args[place], &its[place]) {
            return false;
        }
    }
    true
}

/// Whether two feeders of cubes are the same.
pub fn same_found(space: &Space, one: &FoundFeeder, other: &FoundFeeder) -> bool
    requires one { IsFound space.now one.now }
    requires other { IsFound space.now other.now }
    ensures { result ≡ same_found one.now other.now }
{
    if one.cube != other.cube {
        return false;
    }
    if !same_reference(space, one.cube, &one.feeder.target, &other.feeder.target) {
        return false;
    }
    is_same_area(one.feeder.area.get(), other.feeder.area.get())
}
