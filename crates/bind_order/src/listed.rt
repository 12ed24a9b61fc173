ghost use Rattle.std.specs.Prelude.{◌≡◌, ◌<◌, ℕ, List, [], length, IfOk, IfSome, IfNone, false, true};
ghost use Rattle.cube_space.specs.Cells.{is_leaf};
ghost use Rattle.bind_order.specs.Ranks.{may_list, entry_element, are_listed, listed_ranks, index_rank, index_ranks};
ghost use Rattle.bind_order.specs.Ranks.{are_writable, is_list_of};
ghost use Rattle.bind_order.specs.Inside.Given.{AreWithin};

use dim_core::Dimension;
use dim_name::Name;
use std::alloc::{AllocError, Global};

/// The greatest number that an order line may write. An index, which it doesn't write, may be greater.
pub const MAX_WRITTEN: u32 = 65_535;

// Whether no entry of a list has a rank that is too great to be written.
fn are_writable(list: &[(Name, u32)]) -> bool
    ensures { result ≡ are_writable list.now }
{
    list.iter().all(|entry| entry.1 <= MAX_WRITTEN)
}

/// Whether an element is a leaf.
pub fn is_leaf(dimension: &Dimension, element: u32) -> bool
    requires { element < length dimension.now.elements }
    ensures { result ≡ is_leaf dimension.now element }
{
    dimension.components(element).len() == 0
}

// The rank by index, which counts from 1.
fn index_rank(dimension: &Dimension, element: u32) -> Option<u32>
    requires { element < length dimension.now.elements }
    ensures { result ≡ index_rank dimension.now element }
{
    // there is room: a dimension knows how many elements it has
    let _len = dimension.len();
    if is_leaf(dimension, element) {
        Some(element + 1)
    } else {
        None
    }
}

/// The ranks that a dimension alone gives: each leaf its index, which counts from 1.
pub fn index_ranks(alloc: Global, dimension: &Dimension) -> Result<Vec<Option<u32>>, AllocError>
    ensures given { IfOk result (λ given. given.items ≡ index_ranks dimension.now) }
    ensures small { IfOk result (λ given. AreWithin given.items) }
{
    let mut given = Vec::new(alloc);
    for element in 0..dimension.len() {
        given.push(index_rank(dimension, element))?;
    }
    Ok(given)
}

// Whether an element may be listed that has this rank from the entries before.
fn may_list(dimension: &Dimension, totals: bool, before: Option<u32>, element: u32) -> bool
    requires { element < length dimension.now.elements }
    ensures { result ≡ may_list dimension.now totals before element }
{
    before.is_none() && (is_leaf(dimension, element) || totals)
}

// The element that an entry lists, behind entries that give these ranks.
fn entry_element(
    dimension: &Dimension,
    totals: bool,
    given: &[Option<u32>],
    name: &Name,
) -> Option<u32>
    requires { length given.now ≡ length dimension.now.elements }
    ensures element { (before : List (List ℕ × ℕ)) → given.now ≡ listed_ranks dimension.now before
        → result ≡ entry_element dimension.now totals before name.now }
    ensures within { IfSome result (λ element. element < length given.now) }
{
    match dimension.index_of(name) {
        Some(element) => {
            if may_list(dimension, totals, given[element as usize], element) {
                Some(element)
            } else {
                None
            }
        }
        None => None,
    }
}

// The ranks that an empty list gives: none.
fn unlisted(alloc: Global, dimension: &Dimension) -> Result<Vec<Option<u32>>, AllocError>
    ensures { IfOk result (λ given. given.items ≡ listed_ranks dimension.now []) }
{
    let mut given = Vec::new(alloc);
    for _element in 0..dimension.len() {
        given.push(None)?;
    }
    Ok(given)
}

// The ranks that a list gives, by element, or None where it lists what it may not.
fn listed_ranks(
    alloc: Global,
    dimension: &Dimension,
    totals: bool,
    list: &[(Name, u32)],
) -> Result<Option<Vec<Option<u32>>>, AllocError>
    ensures given { IfOk result (λ found. IfSome found (λ given. given.items ≡ listed_ranks dimension.now list.now)) }
    ensures listed { IfOk result (λ found. IfSome found (λ _. are_listed dimension.now totals [] list.now ≡ true)) }
    ensures bad { IfOk result (λ found. IfNone found (are_listed dimension.now totals [] list.now ≡ false)) }
{
    let mut given = unlisted(alloc, dimension)?;
    for entry in list {
        match entry_element(dimension, totals, &given, &entry.0) {
            Some(element) => given[element as usize] = Some(entry.1),
            None => return Ok(None),
        }
    }
    Ok(Some(given))
}

/// The ranks that a list gives, by element, or None where an order line may not have the list. Consolidated elements
/// may be listed, `totals`, or may not be.
pub fn given_ranks(
    alloc: Global,
    dimension: &Dimension,
    totals: bool,
    list: &[(Name, u32)],
) -> Result<Option<Vec<Option<u32>>>, AllocError>
    ensures given { IfOk result (λ found. IfSome found (λ given. given.items ≡ listed_ranks dimension.now list.now)) }
    ensures listed { IfOk result (λ found. IfSome found (λ _. is_list_of dimension.now totals list.now ≡ true)) }
    ensures bad { IfOk result (λ found. IfNone found (is_list_of dimension.now totals list.now ≡ false)) }
    ensures small { IfOk result (λ found. IfSome found (λ given. AreWithin given.items)) }
{
    if are_writable(list) {
        listed_ranks(alloc, dimension, totals, list)
    } else {
        Ok(None)
    }
}
