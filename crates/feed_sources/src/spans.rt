ghost use Rattle.std.specs.Prelude.{◌≡◌, ℕ, ◌<◌, IfOk, IsTrue, length, slice_index};
ghost use Rattle.std.specs.List.{AllZip};
ghost use Rattle.feed_sources.specs.Spans.{IsSpan};
ghost use Rattle.feed_sources.specs.Inside.Tables.{AreSpans, AreSpansOf};

use crate::same::is_same_area;
use lists::ListOf;
use rule_model::{Area, Feeder, Model};
use std::alloc::{AllocError, Global};

// A longer list isn't compared, so that many targets of a statement with a long list cost no product.
const MAX_COMPARED: usize = 4_096;

/// Of each cube, of each of its feeders, a place up to which those from it on have its area. A feeder statement has a
/// feeder for each of its targets, so a row is as long as its list of targets.
pub fn spans_of_cubes(alloc: Global, model: &Model) -> Result<Vec<ListOf<usize>>, AllocError>
    ensures { IfOk result (λ ends. AllZip AreSpansOf model.now.rules ends.items) }
{
    let space = model.space();
    let mut ends = Vec::new(alloc);
    'each: for cube in 0..space.cubes() {
        let feeders = model.rules(cube).feeders.as_slice();
        ends.push(spans_of(alloc, feeders)?)?;
    }
    Ok(ends)
}

// The same of the feeders of one cube, from the last one back.
fn spans_of(alloc: Global, feeders: &[Feeder]) -> Result<ListOf<usize>, AllocError>
    ensures { IfOk result (λ ends. AreSpans feeders.now ends) }
{
    let mut ends = Vec::from_elem(alloc, 0usize, feeders.len())?;
    'each: for behind in 0..feeders.len() {
        let place = feeders.len() - 1 - behind;
        let end = span_end(feeders, &ends, place);
        ends[place] = end;
    }
    Ok(ListOf::new(ends))
}

// A place up to which the feeders from this one on have its area, where those of later feeders are known.
fn span_end(feeders: &[Feeder], ends: &[usize], place: usize) -> usize
    requires place { place < length feeders.now }
    requires whole { length ends.now ≡ length feeders.now }
    requires later { (later : ℕ) → place < later → later < length feeders.now
        → IsSpan feeders.now later (slice_index ends.now later) }
    ensures { IsSpan feeders.now place result }
{
    let next = place + 1;
    if next == feeders.len() {
        return next;
    }
    if !are_alike(feeders[place].area.get(), feeders[next].area.get()) {
        return next;
    }
    ends[next]
}

// Whether it is known at once that two areas have the same sets: both list few elements.
fn are_alike(one: &Area, other: &Area) -> bool
    ensures { IsTrue result → one.now.sets ≡ other.now.sets }
{
    lists_few(one) && is_same_area(one, other)
}

// Whether an area lists few elements in each dimension.
fn lists_few(area: &Area) -> bool {
    let sets = area.sets.as_slice();
    'each: for k in 0..sets.len() {
        if let Some(listed) = &sets[k]
            && listed.as_slice().len() > MAX_COMPARED
        {
            return false;
        }
    }
    true
}
