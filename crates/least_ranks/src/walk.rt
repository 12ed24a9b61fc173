ghost use Rattle.std.specs.Prelude.{◌≡◌, ◌<◌, ◌^◌, Contains, length, map, slice_index, IfOk, IfSome, IfNone, OnOk};
ghost use Rattle.std.specs.Prelude.{All, drop, vec_len};
ghost use Rattle.least_ranks.specs.Inside.States.{rank_of};
ghost use Rattle.least_ranks.specs.Inside.Trails.{fresh, state_of, entered, passed_on, left, settled};
ghost use Rattle.least_ranks.specs.Inside.Trails.{IsJoined, IsCut, IsRising, IsTop, IsIdle, EndsWith, rank_all};

use crate::state::State;
use std::alloc::{AllocError, Global};
use std::marker::Model;

/// A walk over a graph, depth first. The nodes that it has come to and that have no rank yet are its path, in the order
/// in which it came to them. The path falls into parts: from each node of a part arrows lead to each other one.
#[derive(Drop)]
pub struct Walk {
    states: Vec<State>,
    path: Vec<u32>,
    // How many slots of each node of the path are passed.
    passed: Vec<u32>,
    // The places of the nodes that have slots left.
    busy: Vec<u32>,
    // The places at which parts begin.
    parts: Vec<u32>,
}

impl Model for Walk {
    ghost use Rattle.least_ranks.specs.Inside.Trails.{Trail};

    ghost Value = { Trail };

    ghost view = { λ w. record {
      states = w.states.items;
      path = w.path.items;
      passed = w.passed.items;
      busy = w.busy.items;
      parts = w.parts.items;
    } };
}

impl Walk {
    /// A walk over a graph of this many nodes that hasn't begun.
    pub fn new(alloc: Global, node_count: u32) -> Result<Walk, AllocError>
        ensures { IfOk result (λ walk. walk ≡ fresh node_count) }
    {
        let count = node_count as usize;
        Ok(Walk {
            states: vec![in alloc; State::New; count]?,
            path: Vec::with_capacity(alloc, count)?,
            passed: Vec::with_capacity(alloc, count)?,
            busy: Vec::with_capacity(alloc, count)?,
            parts: Vec::with_capacity(alloc, count)?,
        })
    }

    /// What is known of a node.
    pub fn state(&self, node: u32) -> State
        requires { node < length self.now.states }
        ensures { result ≡ state_of self.now node }
    {
        self.states[node as usize]
    }

    /// The node at a place of the path.
    pub fn node_at(&self, place: u32) -> u32
        requires { place < length self.now.path }
        ensures { result ≡ slice_index self.now.path place }
    {
        self.path[place as usize]
    }

    /// How many slots of the node at a place of the path are passed.
    pub fn passed_at(&self, place: u32) -> u32
        requires { place < length self.now.passed }
        ensures { result ≡ slice_index self.now.passed place }
    {
        self.passed[place as usize]
    }

    /// The place at which the last part begins.
    pub fn last_part(&self) -> Option<u32>
        ensures some { IfSome result (λ start. EndsWith self.now.parts start) }
        ensures none { IfNone result (length self.now.parts ≡ 0) }
    {
        last_of(&self.parts)
    }

    /// The place of the last node with slots left, where it is in the last part.
    pub fn top(&self) -> Option<u32>
        requires busy { IsRising self.now.busy }
        requires parts { IsRising self.now.parts }
        ensures some { IfSome result (IsTop self.now) }
        ensures none { IfNone result (IsIdle self.now) }
    {
        match (last_of(&self.busy), last_of(&self.parts)) {
            (Some(place), Some(start)) if start <= place => Some(place),
            _ => None,
        }
    }

    /// The nodes of the path from this place on.
    pub fn part(&self, start: u32) -> &[u32]
        requires { start < length self.now.path }
        ensures { result.now ≡ drop start self.now.path }
    {
        &self.path[start as usize..]
    }

    /// Comes to a new node, which begins a part of its own.
    pub fn enter(&mut self, node: u32) -> Result<(), AllocError>
        requires within { node < length self.old.states }
        requires few { length self.old.path < 2 ^ 32 }
        ensures { OnOk result (self.new ≡ entered self.old node) }
    {
        let place = self.path.len() as u32;
        self.states[node as usize] = State::Waiting(place);
        self.path.push(node)?;
        self.passed.push(0)?;
        self.busy.push(place)?;
        self.parts.push(place)?;
        Ok(())
    }

    /// Joins the parts from this place on to one.
    pub fn join(&mut self, place: u32)
        requires { IsRising self.old.parts }
        ensures { IsJoined self.old self.new place }
    {
        cut(&mut self.parts, place);
    }

    /// So many slots of the node at this place are passed.
    pub fn pass(&mut self, place: u32, slots: u32)
        requires { place < length self.old.passed }
        ensures { self.new ≡ passed_on self.old place slots }
    {
        self.passed[place as usize] = slots;
    }

    /// The last node with slots left has none.
    pub fn leave(&mut self)
        ensures { self.new ≡ left self.old }
    {
        self.busy.pop();
    }

    /// Gives the nodes of the last part, which begins at this place, their rank.
    pub fn settle(&mut self, start: u32, rank: u32)
        requires start { start < length self.old.path }
        requires nodes { All (λ node. node < length self.old.states) self.old.path }
        ensures { self.new ≡ settled self.old start rank }
    {
        rank_all(&mut self.states, &self.path[start as usize..], rank);
        self.path.truncate(start as usize);
        self.passed.truncate(start as usize);
        self.parts.pop();
    }

    /// The ranks of all nodes, 0 where a node has none.
    pub fn ranks(&self, alloc: Global) -> Result<Vec<u32>, AllocError>
        ensures { IfOk result (λ ranks. ranks.items ≡ map rank_of self.now.states) }
    {
        self.states.iter().map(|state| state.rank()).collect(alloc)
    }
}

// The last of these numbers.
fn last_of(numbers: &[u32]) -> Option<u32>
    ensures some { IfSome result (λ last. EndsWith numbers.now last) }
    ensures none { IfNone result (length numbers.now ≡ 0) }
{
    numbers.last().copied()
}

// Takes away the places after this one.
fn cut(parts: &mut Vec<u32>, place: u32)
    requires { IsRising parts.old.items }
    ensures { IsCut parts.old.items parts.new.items place }
{
    'parts: while let Some(last) = last_of(parts) {
        if last <= place {
            return;
        }
        parts.pop();
    }
}

// Gives these nodes a rank.
fn rank_all(states: &mut [State], nodes: &[u32], rank: u32)
    requires { All (λ node. node < length states.old) nodes.now }
    ensures { states.new ≡ rank_all rank nodes.now states.old }
{
    for node in nodes {
        states[*node as usize] = State::Ranked(rank);
    }
}
