ghost use Rattle.std.specs.Prelude.{◌≡◌, ◌≤◌, ◌<◌, ◌^◌, [], false, fold, length, slice_get, All, IfOk, OnOk};
ghost use Rattle.std.specs.List.{list_any};
ghost use Rattle.std.specs.Option.{option_map_or};
ghost use Rattle.lists.specs.Keys.{insert_key};
ghost use Rattle.feed_find.specs.Found.{same_found};
ghost use Rattle.feed_find.specs.Added.{IsFound};
ghost use Rattle.feed_find.specs.Filed.{head_of, mark_with, slot_of, slot_count};

use crate::chosen::FoundFeeder;
use crate::same::same_found;
use cube_space::Space;
use lists::ListOf;
use std::alloc::{AllocError, Global};
use std::marker::Model;

/// How many slots there are: with 100,000 feeders some six have the same.
const SLOTS: u64 = 16_384;

/// Feeders, each once, in the order in which they came. Contracts see the list of them.
#[derive(Drop)]
pub struct FoundTable {
    feeders: Vec<FoundFeeder>,
    /// The places of those whose areas begin with the same elements.
    slots: Vec<Vec<usize>>,
}

impl Model for FoundTable {
    ghost use Rattle.std.specs.Prelude.{List};
    ghost use Rattle.feed_find.specs.declared.chosen.FoundFeeder.{FoundFeeder as AnyFound};
    ghost use Rattle.feed_find.specs.Filed.{AreFiled, places_of};

    ghost Value = { List AnyFound };

    ghost view = { λ table. table.feeders.items };

    ghost invariant = { λ table. AreFiled table.feeders.items (places_of table.slots.items) };
}

// Slots without places.
fn no_slots(alloc: Global) -> Result<Vec<Vec<usize>>, AllocError>
    ensures { IfOk result (λ slots. length slots.items ≡ slot_count) }
{
    let mut slots = Vec::new(alloc);
    'each: for count in 0..SLOTS {
        slots.push(Vec::new(alloc))?;
    }
    Ok(slots)
}

// The first element that a set lists, from 1, or 0.
fn head_of(set: &Option<ListOf<u32>>) -> u64
    ensures head { result ≡ head_of set.now }
    ensures few { result ≤ 2 ^ 32 }
{
    let Some(listed) = set else {
        return 0;
    };
    match listed.as_slice() {
        [] => 0,
        [element, ..] => u64::from(*element) + 1,
    }
}

// The slot of a feeder.
fn slot_of(found: &FoundFeeder) -> usize
    ensures slot { result ≡ slot_of found.now }
    ensures within { result < slot_count }
{
    let sets = found.feeder.area.get().sets.as_slice();
    let mut mark = 0;
    'each: for k in 0..sets.len() {
        mark = (mark * 31 + head_of(&sets[k])) % SLOTS;
    }
    mark as usize
}

impl FoundTable {
    /// No feeders yet.
    pub fn new(alloc: Global) -> Result<FoundTable, AllocError>
        ensures { IfOk result (λ table. table ≡ []) }
    {
        Ok(FoundTable {
            feeders: Vec::new(alloc),
            slots: no_slots(alloc)?,
        })
    }

    // Whether the feeder at a place is the same as another.
    fn is_at(&self, space: &Space, place: usize, one: &FoundFeeder) -> bool
        requires feeders { All (IsFound space.now) self.now }
        requires one { IsFound space.now one.now }
        ensures { result ≡ option_map_or (same_found one.now) (slice_get self.now place) false }
    {
        match self.feeders.get(place) {
            Some(other) => same_found(space, one, other),
            None => false,
        }
    }

    // Whether one of them is the same as another.
    fn contains(&self, space: &Space, one: &FoundFeeder) -> bool
        requires feeders { All (IsFound space.now) self.now }
        requires one { IsFound space.now one.now }
        ensures { result ≡ list_any (same_found one.now) self.now }
    {
        let places = self.slots[slot_of(one)].as_slice();
        'each: for k in 0..places.len() {
            if self.is_at(space, places[k], one) {
                return true;
            }
        }
        false
    }

    /// Adds a feeder, unless it is there already.
    pub fn insert(&mut self, space: &Space, one: FoundFeeder) -> Result<(), AllocError>
        requires feeders { All (IsFound space.now) self.old }
        requires one { IsFound space.now one }
        ensures added { OnOk result (self.new ≡ insert_key same_found self.old one) }
        ensures valid { OnOk result (All (IsFound space.now) self.new) }
    {
        if self.contains(space, &one) {
            return Ok(());
        }
        let place = self.feeders.len();
        self.feeders.reserve(1)?;
        self.slots[slot_of(&one)].push(place)?;
        self.feeders.push_reserved(one);
        Ok(())
    }

    /// The feeders.
    pub fn into_feeders(self) -> ListOf<FoundFeeder>
        ensures { result ≡ self }
    {
        ListOf::new(self.feeders)
    }
}
