ghost use Rattle.std.specs.Prelude.{◌≡◌, None, length, nat_eq, slice_get, unwrap_or};
ghost use Rattle.std.specs.Option.{option_eq};
ghost use Rattle.feed_print.specs.FeederTexts.{first_sent, moves_by, shift};

use rule_laws::ElementMap;

/// The first element that a map of so many elements sends anywhere, and where it goes.
pub fn first_sent(to: &ElementMap, size: u32) -> Option<(u32, u32)>
    requires { length to.now ≡ size }
    ensures { result ≡ first_sent 0 to.now }
{
    'each: for element in 0..size {
        if let Some(target) = to.get(element as usize) {
            return Some((element, target));
        }
    }
    None
}

// The map that moves each of so many elements as far as it is from the one index to the other.
fn shift(size: u32, from: u32, to: u32) -> ElementMap
    ensures { result ≡ shift size from to }
{
    if from == to {
        ElementMap::identity(size)
    } else if to < from {
        ElementMap::before(size, from - to)
    } else {
        ElementMap::behind(size, to - from)
    }
}

// Whether both maps send an element alike.
fn sends_alike(one: &ElementMap, other: &ElementMap, element: usize) -> bool
    ensures { result ≡ option_eq nat_eq (unwrap_or (slice_get one.now element) None)
        (unwrap_or (slice_get other.now element) None) }
{
    one.get(element) == other.get(element)
}

/// Whether a map of so many elements moves all as far as from the one index to the other.
pub fn moves_by(to: &ElementMap, size: u32, from: u32, target: u32) -> bool
    requires { length to.now ≡ size }
    ensures { result ≡ moves_by to.now from target }
{
    let moved = shift(size, from, target);
    if moved.is_same(to) {
        return true;
    }
    'each: for element in 0..size {
        if !sends_alike(&moved, to, element as usize) {
            return false;
        }
    }
    true
}
