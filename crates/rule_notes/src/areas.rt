ghost use Rattle.std.specs.Prelude.{◌≡◌, ◌<◌, ◌==◌, is_some, length, slice_index_or, IfSome, None};
ghost use Rattle.std.specs.List.{list_all, list_any};
ghost use Rattle.std.specs.List.Sorted.{IsStrictlyIncreasing};
ghost use Rattle.cube_space.specs.Layout.{axes, sizes};
ghost use Rattle.rule_model.specs.Conditions.{IsArea, IsSet};
ghost use Rattle.rule_notes.specs.Inside.Areas.{elements_in, has_set, has_area};

use lists::ListOf;
use ref_order::{axis, axis_count, count, element_at};
use rule_model::{Area, Model};

/// Whether an area of a cube has, in each dimension, all elements that another one has.
pub fn has_area(model: &Model, cube: u32, outer: &Area, inner: &Area) -> bool
    requires cube { cube < length model.now.space.cubes }
    requires outer { IsArea model.now.space cube outer.now }
    requires inner { IsArea model.now.space cube inner.now }
    ensures { result ≡ has_area model.now.space cube outer.now inner.now }
{
    'each: for dim in 0..axis_count(model, cube) {
        let own = set_at(model, cube, outer, dim);
        let its = set_at(model, cube, inner, dim);
        if !has_set(own, its, axis(model, cube, dim).len()) {
            return false;
        }
    }
    true
}

// The elements that an area has in a dimension.
fn set_at<'a>(model: &Model, cube: u32, area: &'a Area, dim: usize) -> &'a Option<ListOf<u32>>
    requires area { IsArea model.now.space cube area.now }
    requires dim { dim < length (axes model.now.space cube) }
    ensures set { result.now ≡ slice_index_or area.now.sets dim None }
    ensures valid { IsSet (slice_index_or (sizes model.now.space cube) dim 0) result.now }
{
    let _space = model.space();
    &area.sets.as_slice()[dim]
}

// Whether a set of an area has all elements of another, in a dimension of this size.
fn has_set(outer: &Option<ListOf<u32>>, inner: &Option<ListOf<u32>>, size: u32) -> bool
    requires outer { IsSet size outer.now }
    requires inner { IsSet size inner.now }
    ensures { result ≡ has_set size outer.now inner.now }
{
    match outer {
        Some(listed) => has_listed(listed.as_slice(), inner, size),
        None => true,
    }
}

// Whether a rising list has all elements of a set. A list that is shorter than the set hasn't, which is known at once.
fn has_listed(listed: &[u32], inner: &Option<ListOf<u32>>, size: u32) -> bool
    requires listed { IsStrictlyIncreasing listed.now }
    requires inner { IsSet size inner.now }
    ensures { result ≡ list_all (λ element. list_any (λ e. e == element) listed.now) (elements_in size inner.now) }
{
    let count = count(inner, size);
    if listed.len() < count {
        return false;
    }
    let mut next = 0;
    'each: for k in 0..count {
        let Some(at) = place_in(listed, element_at(inner, size, k), next) else {
            return false;
        };
        next = at + 1;
    }
    true
}

// Where in a rising list this element stands, if it does. Elements that are looked for in order often stand one behind
// the other, so the place behind the last one is tried first.
fn place_in(listed: &[u32], element: u32, next: usize) -> Option<usize>
    requires { IsStrictlyIncreasing listed.now }
    ensures listed { is_some result ≡ list_any (λ e. e == element) listed.now }
    ensures inside { IfSome result (λ at. at < length listed.now) }
{
    if next < listed.len() && listed[next] == element {
        return Some(next);
    }
    match listed.binary_search(&element) {
        Ok(at) => Some(at),
        Err(_) => None,
    }
}
