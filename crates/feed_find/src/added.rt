ghost use Rattle.std.specs.Prelude.{◌≡◌, ◌+◌, ◌^◌, ◌<◌, ◌++◌, ◌∷◌, [], length, set, slice_index_or, All, IfOk, OnOk};
ghost use Rattle.rule_model.specs.BoundModel.{no_rules};
ghost use Rattle.feed_find.specs.Added.{IsFound, numbered, with_feeders, with_found};
ghost use Rattle.feed_find.specs.Views.{groups_of, AreWithGroups, HaveFewFeeders, IsOwnAdded, lists_in};

use crate::chosen::FoundFeeder;
use lists::ListOf;
use model_counts::feeder_statements;
use rule_model::{CubeRules, Feeder, Model};
use std::alloc::{AllocError, Global};
use std::mem;

/// The most feeders that a cube may have. More of them need more memory than there is.
const MOST_FEEDERS: u64 = 4_294_967_295;

// For each of so many cubes, those of these feeders that are its own.
fn grouped(
    alloc: Global,
    cubes: u32,
    found: ListOf<FoundFeeder>,
) -> Result<Vec<Vec<Feeder>>, AllocError>
    requires { All (λ one. one.cube < cubes) found }
    ensures { IfOk result (λ groups. lists_in groups.items ≡ groups_of cubes found) }
{
    let mut groups = Vec::new(alloc);
    'cubes: for count in 0..cubes {
        groups.push(Vec::new(alloc))?;
    }
    for one in found.into_vec() {
        let FoundFeeder { cube, feeder } = one;
        groups[cube as usize].push(feeder)?;
    }
    Ok(groups)
}

// Adds a feeder as a feeder statement of this number.
fn add_numbered(feeders: &mut Vec<Feeder>, number: u32, feeder: Feeder) -> Result<(), AllocError>
    ensures { OnOk result (feeders.new.items ≡ feeders.old.items ++ numbered number (feeder ∷ [])) }
{
    feeders.push(Feeder {
        statement: number,
        ..feeder
    })?;
    Ok(())
}

// Adds feeders, each as a feeder statement of its own, numbered from this one on.
fn add_group(feeders: &mut Vec<Feeder>, first: u32, group: Vec<Feeder>) -> Result<(), AllocError>
    requires { first + length group.items < 2 ^ 32 }
    ensures { OnOk result (feeders.new.items ≡ feeders.old.items ++ numbered first group.items) }
{
    let mut number = first;
    for feeder in group {
        add_numbered(feeders, number, feeder)?;
        number += 1;
    }
    Ok(())
}

// The rules of a cube with more feeders.
fn with_feeders(alloc: Global, rules: &mut CubeRules, group: Vec<Feeder>) -> Result<(), AllocError>
    requires { length rules.old.feeders < 2 ^ 32 }
    ensures rules { OnOk result (rules.new ≡ with_feeders rules.old group.items) }
    ensures few { OnOk result (length rules.new.feeders < 2 ^ 32) }
{
    let count = rules.feeders.as_slice().len() as u64;
    let first = feeder_statements(rules.feeders.as_slice());
    let more = group.len() as u64;
    if more > MOST_FEEDERS || count + more > MOST_FEEDERS {
        return Err(AllocError);
    }
    if first > MOST_FEEDERS || first + more > MOST_FEEDERS {
        return Err(AllocError);
    }
    let own = mem::replace(&mut rules.feeders, ListOf::new(Vec::new(alloc)));
    let mut feeders = own.into_vec();
    add_group(&mut feeders, first as u32, group)?;
    rules.feeders = ListOf::new(feeders);
    Ok(())
}

// Adds the feeders that are its own to the rules of a cube, and takes them from the others.
fn add_own(
    alloc: Global,
    rules: &mut [CubeRules],
    groups: &mut [Vec<Feeder>],
    cube: usize,
) -> Result<(), AllocError>
    requires rules { cube < length rules.old }
    requires groups { cube < length groups.old }
    requires few { length (slice_index_or rules.old cube no_rules).feeders < 2 ^ 32 }
    ensures rules { OnOk result (IsOwnAdded cube (lists_in groups.old) rules.old rules.new) }
    ensures groups { OnOk result (lists_in groups.new ≡ set (lists_in groups.old) cube []) }
{
    let group = mem::replace(&mut groups[cube], Vec::new(alloc));
    with_feeders(alloc, &mut rules[cube], group)
}

// The rules of each cube with the feeders that are its own.
fn with_groups(
    alloc: Global,
    mut rules: Vec<CubeRules>,
    mut groups: Vec<Vec<Feeder>>,
) -> Result<Vec<CubeRules>, AllocError>
    requires long { length groups.items ≡ length rules.items }
    requires few { HaveFewFeeders rules.items }
    ensures all { IfOk result (λ all. AreWithGroups rules.items (lists_in groups.items) all.items) }
    ensures few { IfOk result (λ all. HaveFewFeeders all.items) }
{
    'each: for cube in 0..rules.len() {
        add_own(alloc, &mut rules, &mut groups, cube)?;
    }
    Ok(rules)
}

/// The model in which each cube has those of these feeders that are its own, behind those that it has, and each as a
/// feeder statement of its own. Nothing else of it changes.
pub fn with_found(
    alloc: Global,
    model: Model,
    found: ListOf<FoundFeeder>,
) -> Result<Model, AllocError>
    requires { All (IsFound model.space) found }
    ensures { IfOk result (λ all. all ≡ with_found model found) }
{
    // a space says of itself that it is one, and the rules of a model are those of its cubes
    let _space = model.space();
    if found.as_slice().is_empty() {
        return Ok(model);
    }
    let (space, weights, rules) = model.into_parts();
    let groups = grouped(alloc, space.cubes(), found)?;
    let rules = with_groups(alloc, rules, groups)?;
    Model::of(alloc, space, weights, rules)
}
