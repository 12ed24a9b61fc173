ghost use Rattle.std.specs.Prelude.{◌≡◌, ◌<◌, ◌^◌, length, IfOk, IfSome, MatchOption, None, Some};
ghost use Rattle.feed_turn.specs.Shift.{shift, shift_from, goes, sends_alike, short_form};

use rule_laws::ElementMap;
use std::alloc::{AllocError, Global};

/// The map of this list. One that stays within a dimension has its short form: it moves all elements as far, if it
/// sends those that are sent alike.
#[tactic(auto, unfolding(crate::specs::Shift::short_form))]
pub fn short_form(
    alloc: Global,
    stays: bool,
    back: Vec<Option<u32>>,
) -> Result<ElementMap, AllocError>
    requires { length back.items < 2 ^ 32 }
    ensures { IfOk result (λ map. map ≡ short_form stays back.items) }
{
    if stays
        && let Some(map) = shift_of(&back)
        && sends_alike(&map, &back)
    {
        return Ok(map);
    }
    ElementMap::listed(alloc, back)
}

// The map that moves each element as far as a list moves the first that it sends anywhere.
fn shift_of(back: &[Option<u32>]) -> Option<ElementMap>
    requires { length back.now < 2 ^ 32 }
    ensures { result ≡ shift_from (length back.now) 0 back.now }
{
    'each: for place in 0..back.len() as u32 {
        if let Some(element) = back[place as usize] {
            return Some(shift(back.len() as u32, place, element));
        }
    }
    None
}

// The map of so many elements that moves each as far as from the one place to the other.
fn shift(size: u32, from: u32, to: u32) -> ElementMap
    ensures { result ≡ shift size from to }
{
    if from == to {
        ElementMap::identity(size)
    } else if from < to {
        ElementMap::behind(size, to - from)
    } else {
        ElementMap::before(size, from - to)
    }
}

// Whether a map sends each element that another sends anywhere to the same.
fn sends_alike(map: &ElementMap, back: &[Option<u32>]) -> bool
    ensures { result ≡ sends_alike map.now back.now }
{
    'each: for element in 0..back.len() {
        if !goes(map, element, back[element]) {
            return false;
        }
    }
    true
}

/// Whether a map sends an element where it is to go.
pub fn goes(map: &ElementMap, element: usize, target: Option<u32>) -> bool
    ensures { result ≡ goes map.now element target }
{
    match target {
        None => true,
        Some(target) => map.get(element) == Some(target),
    }
}
