ghost use Rattle.std.specs.Prelude.{◌≡◌, ◌<◌, All, length, map, max, unwrap_or, IfOk, IfSome};
ghost use Rattle.std.specs.List.{range_with_len};
ghost use Rattle.dim_weights.specs.Table.{IsWeightsOf};
ghost use Rattle.rule_model.specs.Order.{greatest};
ghost use Rattle.rule_model.specs.Conditions.{AreRanks};
ghost use Rattle.bind_order.specs.Ranks.{leaf_rank, greatest_leaf, filled_rank, fitting, rank_of, ranks_by_index};
ghost use Rattle.bind_order.specs.Ranks.{ranks_of, list_ranks, filled_ranks, plain_ranks};
ghost use Rattle.bind_order.specs.Inside.Given.{AreWithin};
ghost use Rattle.bind_order.specs.Inside.Held.{AreHeldRanks};

use crate::listed::{given_ranks, index_ranks};
use dim_core::Dimension;
use dim_name::Name;
use dim_weights::Weights;
use lists::ListOf;
use std::alloc::{AllocError, Global};

// The rank of a leaf, where these are given.
fn leaf_rank(given: &[Option<u32>], leaf: u32) -> u32
    requires { leaf < length given.now }
    ensures { result ≡ leaf_rank given.now leaf }
{
    match given[leaf as usize] {
        Some(rank) => rank,
        None => 0,
    }
}

// The greatest rank of these leaves.
fn greatest_leaf(given: &[Option<u32>], leaves: &[(u32, i64)]) -> u32
    requires { All (λ pair. pair.0 < length given.now) leaves.now }
    ensures { result ≡ greatest (map (λ pair. leaf_rank given.now pair.0) leaves.now) }
{
    let mut best = 0;
    for pair in leaves {
        best = larger(best, leaf_rank(given, pair.0));
    }
    best
}

fn larger(a: u32, b: u32) -> u32
    ensures { result ≡ max a b }
{
    if a < b { b } else { a }
}

// A rank that is at least this.
fn fitting(least: u32, rank: u32) -> Option<u32>
    ensures { result ≡ fitting least rank }
{
    if least <= rank { Some(rank) } else { None }
}

// The rank of an element.
fn rank_of(
    dimension: &Dimension,
    weights: &Weights,
    given: &[Option<u32>],
    element: u32,
) -> Option<u32>
    requires weights { IsWeightsOf dimension.now weights.now }
    requires whole { length given.now ≡ length dimension.now.elements }
    requires within { element < length dimension.now.elements }
    ensures { result ≡ rank_of dimension.now given.now element }
{
    let least = greatest_counted(dimension, weights, given, element);
    match given[element as usize] {
        Some(rank) => fitting(least, rank),
        None => fitting(least, least),
    }
}

/// The ranks that a dimension alone gives: of an element the greatest index of a leaf that counts in it. An index
/// counts from 1.
pub fn ranks_by_index(
    alloc: Global,
    dimension: &Dimension,
    weights: &Weights,
) -> Result<ListOf<u32>, AllocError>
    requires { IsWeightsOf dimension.now weights.now }
    ensures bound { IfOk result (λ ranks. ranks ≡ ranks_by_index dimension.now) }
    ensures valid { IfOk result (AreHeldRanks dimension.now) }
{
    let given = index_ranks(alloc, dimension)?;
    let mut ranks = Vec::new(alloc);
    for element in 0..dimension.len() {
        ranks.push(greatest_counted(dimension, weights, &given, element))?;
    }
    Ok(ListOf::new(ranks))
}

// The greatest rank of the leaves that count in an element.
fn greatest_counted(
    dimension: &Dimension,
    weights: &Weights,
    given: &[Option<u32>],
    element: u32,
) -> u32
    requires weights { IsWeightsOf dimension.now weights.now }
    requires whole { length given.now ≡ length dimension.now.elements }
    requires within { element < length dimension.now.elements }
    ensures { result ≡ greatest_leaf dimension.now given.now element }
{
    greatest_leaf(given, weights.leaves(element))
}

// The ranks of all elements, or None where one doesn't fit.
fn ranks_of(
    alloc: Global,
    dimension: &Dimension,
    weights: &Weights,
    given: &[Option<u32>],
) -> Result<Option<ListOf<u32>>, AllocError>
    requires weights { IsWeightsOf dimension.now weights.now }
    requires whole { length given.now ≡ length dimension.now.elements }
    requires small { AreWithin given.now }
    ensures bound { IfOk result (λ found. found ≡ ranks_of dimension.now given.now) }
    ensures valid { IfOk result (λ found. IfSome found (AreHeldRanks dimension.now)) }
{
    let mut ranks = Vec::new(alloc);
    for element in 0..dimension.len() {
        match rank_of(dimension, weights, given, element) {
            Some(rank) => ranks.push(rank)?,
            None => return Ok(None),
        }
    }
    Ok(Some(ListOf::new(ranks)))
}

/// The ranks of a dimension by a list, or None where it is bad.
pub fn list_ranks(
    alloc: Global,
    dimension: &Dimension,
    weights: &Weights,
    version: u32,
    list: &[(Name, u32)],
) -> Result<Option<ListOf<u32>>, AllocError>
    requires { IsWeightsOf dimension.now weights.now }
    ensures bound { IfOk result (λ found. found ≡ list_ranks version list.now dimension.now) }
    ensures valid { IfOk result (λ found. IfSome found (AreHeldRanks dimension.now)) }
{
    match given_ranks(alloc, dimension, version != 1, list)? {
        Some(given) => ranks_of(alloc, dimension, weights, &given),
        None => Ok(None),
    }
}

// The rank of an element: the one that is given, or the greatest of a leaf that counts in it.
fn filled_rank(dimension: &Dimension, weights: &Weights, given: &[Option<u32>], element: u32) -> u32
    requires weights { IsWeightsOf dimension.now weights.now }
    requires whole { length given.now ≡ length dimension.now.elements }
    requires within { element < length dimension.now.elements }
    ensures { result ≡ filled_rank dimension.now given.now element }
{
    match given[element as usize] {
        Some(rank) => rank,
        None => greatest_counted(dimension, weights, given, element),
    }
}

// The ranks of all elements, where a consolidated element may have a smaller one than a leaf that counts in it.
fn all_filled(
    alloc: Global,
    dimension: &Dimension,
    weights: &Weights,
    given: &[Option<u32>],
) -> Result<ListOf<u32>, AllocError>
    requires weights { IsWeightsOf dimension.now weights.now }
    requires whole { length given.now ≡ length dimension.now.elements }
    requires small { AreWithin given.now }
    ensures bound { IfOk result (λ ranks. ranks ≡ map (filled_rank dimension.now given.now)
        (range_with_len 0 (length dimension.now.elements))) }
    ensures valid { IfOk result (AreRanks dimension.now) }
{
    let mut ranks = Vec::new(alloc);
    for element in 0..dimension.len() {
        ranks.push(filled_rank(dimension, weights, given, element))?;
    }
    Ok(ListOf::new(ranks))
}

/// The ranks of a dimension by a list where a consolidated element may have a smaller one than a leaf that counts in
/// it, or None where the list is bad.
pub fn filled_ranks(
    alloc: Global,
    dimension: &Dimension,
    weights: &Weights,
    list: &[(Name, u32)],
) -> Result<Option<ListOf<u32>>, AllocError>
    requires { IsWeightsOf dimension.now weights.now }
    ensures bound { IfOk result (λ found. found ≡ filled_ranks list.now dimension.now) }
    ensures valid { IfOk result (λ found. IfSome found (AreRanks dimension.now)) }
{
    match given_ranks(alloc, dimension, true, list)? {
        Some(given) => {
            let ranks = all_filled(alloc, dimension, weights, &given)?;
            Ok(Some(ranks))
        }
        None => Ok(None),
    }
}

// The ranks that are given, and 0 where none is.
fn all_given(alloc: Global, given: &[Option<u32>]) -> Result<ListOf<u32>, AllocError>
    ensures { IfOk result (λ ranks. ranks ≡ map (λ rank. unwrap_or rank 0) given.now) }
{
    let ranks = given.iter().map(|rank| rank.unwrap_or(0)).collect(alloc)?;
    Ok(ListOf::new(ranks))
}

/// The ranks of a dimension by a list for cells of one kind, or None where the list is bad. Consolidated elements may
/// be listed, `totals`, or may not be.
pub fn plain_ranks(
    alloc: Global,
    dimension: &Dimension,
    totals: bool,
    list: &[(Name, u32)],
) -> Result<Option<ListOf<u32>>, AllocError>
    ensures bound { IfOk result (λ found. found ≡ plain_ranks totals list.now dimension.now) }
    ensures valid { IfOk result (λ found. IfSome found (AreRanks dimension.now)) }
{
    match given_ranks(alloc, dimension, totals, list)? {
        Some(given) => {
            let ranks = all_given(alloc, &given)?;
            Ok(Some(ranks))
        }
        None => Ok(None),
    }
}
