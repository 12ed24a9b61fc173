ghost use Rattle.std.specs.Prelude.{◌≡◌, slice_get};
ghost use Rattle.joined_lists.specs.Parts.{bounds_from};

/// Where a list of several that stand one after another begins and ends, where there is one of this place. `ends` are
/// where the lists end.
#[tactic(auto, using(crate::proofs::Ends::of_none, crate::proofs::Ends::of_later, crate::proofs::Ends::of_first))]
pub fn bounds(ends: &[usize], place: usize) -> Option<(usize, usize)>
    ensures { result ≡ slice_get (bounds_from 0 ends.now) place }
{
    match place {
        _ if place >= ends.len() => None,
        0 => Some((0, ends[0])),
        _ => Some((ends[place - 1], ends[place])),
    }
}
