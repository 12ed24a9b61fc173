ghost use Rattle.std.specs.Prelude.{◌≡◌, IfSome, IsTrue};
ghost use Rattle.feed_cover.specs.Answers.{map_of};

use rule_laws::ElementMap;

/// How a map of so many elements was made, where it takes no memory.
#[derive(Clone, Copy)]
pub enum Shift {
    /// Each goes to itself.
    Same(u32),
    /// Each goes to the one so many places behind it.
    Behind(u32, u32),
    /// Each goes to the one so many places before it.
    Before(u32, u32),
}

// The map that is made so.
fn map_of(shift: Shift) -> ElementMap
    ensures { result ≡ map_of shift }
{
    match shift {
        Shift::Same(len) => ElementMap::identity(len),
        Shift::Behind(len, places) => ElementMap::behind(len, places),
        Shift::Before(len, places) => ElementMap::before(len, places),
    }
}

/// How a map of so many elements was made, if it takes no memory.
pub fn shift_of(len: u32, to: &ElementMap) -> Option<Shift>
    ensures { IfSome result (λ shift. to.now ≡ map_of shift) }
{
    let shift = likely_shift(len, to)?;
    if to.is_same(&map_of(shift)) {
        Some(shift)
    } else {
        None
    }
}

// What it can be alone, by where the first element goes, or the last.
fn likely_shift(len: u32, to: &ElementMap) -> Option<Shift> {
    if to.is_identity() {
        return Some(Shift::Same(len));
    }
    if let Some(places) = to.get(0) {
        return Some(Shift::Behind(len, places));
    }
    let last = len.saturating_sub(1);
    let target = to.get(last as usize)?;
    Some(Shift::Before(len, last.saturating_sub(target)))
}

/// Whether two maps are the same.
pub fn same_shift(one: Shift, other: Shift) -> bool
    ensures { IsTrue result → map_of one ≡ map_of other }
{
    match (one, other) {
        (Shift::Same(len), Shift::Same(its)) => len == its,
        (Shift::Behind(len, places), Shift::Behind(its, other)) => len == its && places == other,
        (Shift::Before(len, places), Shift::Before(its, other)) => len == its && places == other,
        _ => false,
    }
}
