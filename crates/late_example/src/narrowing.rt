ghost use Rattle.std.specs.Prelude.{◌≡◌, ◌≤◌, ◌<◌, length, None, slice_index_or, IfOk};
ghost use Rattle.order_laws.specs.Scales.{set_count};
ghost use Rattle.late_example.specs.Inside.Narrowing.{places_of, narrowed};

use lists::ListOf;
use ref_order::element_at;
use rule_model::Area;
use std::alloc::{AllocError, Global};

/// A copy of an area.
pub fn copy(alloc: Global, area: &Area) -> Result<Area, AllocError>
    ensures { IfOk result (λ copy. copy ≡ area.now) }
{
    let sets = sets_of(alloc, area.sets.as_slice())?;
    Ok(Area {
        sets: ListOf::new(sets),
    })
}

/// An area that has, of its set in a dimension of this size, the elements alone that stand from one place up to
/// another.
pub fn narrowed(
    alloc: Global,
    area: &Area,
    dim: usize,
    size: u32,
    from: usize,
    to: usize,
) -> Result<Area, AllocError>
    requires dim { dim < length area.now.sets }
    requires places { from ≤ to }
    requires within { to ≤ set_count size (slice_index_or area.now.sets dim None) }
    ensures { IfOk result (λ narrow. narrow ≡ narrowed area.now dim from to) }
{
    let sets = area.sets.as_slice();
    let listed = listed(alloc, &sets[dim], size, from, to)?;
    let mut narrow = sets_of(alloc, sets)?;
    narrow[dim] = Some(listed);
    Ok(Area {
        sets: ListOf::new(narrow),
    })
}

// The elements of a set that stand from one place up to another.
fn listed(
    alloc: Global,
    set: &Option<ListOf<u32>>,
    size: u32,
    from: usize,
    to: usize,
) -> Result<ListOf<u32>, AllocError>
    requires places { from ≤ to }
    requires within { to ≤ set_count size set.now }
    ensures { IfOk result (λ listed. listed ≡ places_of set.now from to) }
{
    let mut listed = Vec::new(alloc);
    'each: for place in from..to {
        listed.push(element_at(set, size, place))?;
    }
    Ok(ListOf::new(listed))
}

fn sets_of(
    alloc: Global,
    sets: &[Option<ListOf<u32>>],
) -> Result<Vec<Option<ListOf<u32>>>, AllocError>
    ensures { IfOk result (λ copies. copies.items ≡ sets.now) }
{
    let mut copies = Vec::new(alloc);
    'each: for place in 0..sets.len() {
        copies.push(set_of(alloc, &sets[place])?)?;
    }
    Ok(copies)
}

fn set_of(alloc: Global, set: &Option<ListOf<u32>>) -> Result<Option<ListOf<u32>>, AllocError>
    ensures { IfOk result (λ copy. copy ≡ set.now) }
{
    match set {
        Some(listed) => Ok(Some(ListOf::new(Vec::from_slice(alloc, listed.as_slice())?))),
        None => Ok(None),
    }
}
