ghost use Rattle.std.specs.Prelude.{◌≡◌, ◌↔◌, IsTrue};

use lists::ListOf;
use rule_model::Area;

/// Whether two areas have the same sets.
pub fn is_same_area(one: &Area, other: &Area) -> bool
    ensures { IsTrue result ↔ one.now.sets ≡ other.now.sets }
{
    are_same(one.sets.as_slice(), other.sets.as_slice())
}

fn are_same(one: &[Option<ListOf<u32>>], other: &[Option<ListOf<u32>>]) -> bool
    ensures { IsTrue result ↔ one.now ≡ other.now }
{
    if one.len() != other.len() {
        return false;
    }
    'each: for k in 0..one.len() {
        if !is_same_set(&one[k], &other[k]) {
            return false;
        }
    }
    true
}

fn is_same_set(one: &Option<ListOf<u32>>, other: &Option<ListOf<u32>>) -> bool
    ensures { IsTrue result ↔ one.now ≡ other.now }
{
    match (one, other) {
        (None, None) => true,
        (Some(one), Some(other)) => one.as_slice() == other.as_slice(),
        _ => false,
    }
}
