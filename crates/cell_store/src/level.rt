ghost use Rattle.std.specs.Prelude.{◌≡◌, ◌*◌, ◌<◌, ◌≤◌, [], ◌++◌, length, IfOk, OnOk, IfSome, IfNone};
ghost use Rattle.std.specs.List.{flat_map};
ghost use Rattle.cell_store.specs.Inside.Order.{EndsAt, IsRising, after_entries};
ghost use Rattle.cell_store.specs.Inside.Levels.{IsNode, AreNodes, IsLevel, entries_under, level_entries};

use crate::node::{Node, node_of, shared};
use crate::order::Stored;
use crate::part::Part;
use crate::places::{above, at_least, count_up_to};
use std::alloc::{AllocError, Global};
use std::mem;

/// The fewest nodes of a level that versions share. It has fewer than twice as many, so that a version copies few of
/// them at each level.
pub const HALF_LEVEL: usize = 8;

/// Entries in the order of their cells: nodes that versions share, and after them a part that they don't.
#[derive(Drop)]
pub struct Level<T> {
    pub nodes: Vec<Node<T>>,
    pub last: T,
}

impl<E: Stored, T: Part<E>> Part<E> for Level<T> {
    ghost use Rattle.cell_store.specs.declared.level.TheConstants.{HALF_LEVEL};

    ghost entries = { λ level. level_entries T.entries level };

    ghost is_sized = { λ level. IsLevel E.cell T.entries T.is_sized T.size T.half level };

    ghost size = { λ level. length level.nodes.items };

    ghost half = { HALF_LEVEL };

    fn new(alloc: Global) -> Level<T> {
        Level {
            nodes: Vec::new(alloc),
            last: T::new(alloc),
        }
    }

    fn is_large(&self) -> bool {
        self.nodes.len() >= HALF_LEVEL
    }

    fn is_long(&self) -> bool {
        self.nodes.len() >= 2 * HALF_LEVEL
    }

    fn count(&self) -> Result<usize, AllocError> {
        let mut count = self.last.count()?;
        for node in &self.nodes {
            count = count.checked_add(node.count).ok_or(AllocError)?;
        }
        Ok(count)
    }

    fn last_cell(&self) -> Option<u64> {
        match self.last.last_cell() {
            Some(cell) => Some(cell),
            None => last_of_nodes(&self.nodes),
        }
    }

    fn first_from(&self, cell: u64) -> Option<E> {
        match at_least(&self.nodes, cell).first() {
            Some(node) => node.part.first_from(cell),
            None => self.last.first_from(cell),
        }
    }

    fn add_changed(
        &mut self,
        alloc: Global,
        level: &Level<T>,
        writes: &[E],
    ) -> Result<(), AllocError> {
        // one more, for where a node is split
        self.nodes
            .reserve_exact(level.nodes.len().saturating_add(1))?;
        let mut rest = writes;
        for node in &level.nodes {
            let count = count_up_to(rest, node.last);
            add_node(alloc, self, node, &rest[..count])?;
            rest = above(rest, node.last);
        }
        add_part(alloc, self, &level.last, rest)?;
        // else a level would lack this node, and be merged with the next one
        close(alloc, self)
    }

    fn cut(&mut self, alloc: Global) -> Result<Level<T>, AllocError> {
        let back = self.nodes.split_off(HALF_LEVEL)?;
        let nodes = mem::replace(&mut self.nodes, back);
        Ok(Level {
            nodes,
            last: T::new(alloc),
        })
    }
}

// The cell of the last entry of the nodes.
fn last_of_nodes<E: Stored, T: Part<E>>(nodes: &[Node<T>]) -> Option<u64>
    requires { AreNodes E.cell T.entries T.is_sized T.size T.half nodes.now }
    ensures some { IfSome result (λ last. EndsAt E.cell last (flat_map (entries_under T.entries) nodes.now)) }
    ensures none { IfNone result (flat_map (entries_under T.entries) nodes.now ≡ []) }
{
    match nodes.last() {
        Some(node) => Some(node.last),
        None => None,
    }
}

// Adds the entries of a node with these writes. It is shared if there are none, unless too few entries wait before it.
fn add_node<E: Stored, T: Part<E>>(
    alloc: Global,
    level: &mut Level<T>,
    node: &Node<T>,
    writes: &[E],
) -> Result<(), AllocError>
    requires sized { IsLevel E.cell T.entries T.is_sized T.size T.half level.old }
    requires node { IsNode E.cell T.entries T.is_sized T.size T.half node.now }
    requires rising { IsRising E.cell (entries_under T.entries node.now) }
    requires writes { IsRising E.cell writes.now }
    ensures entries { OnOk result (level_entries T.entries level.new ≡ level_entries T.entries level.old
        ++ after_entries E.cell E.is_gone (entries_under T.entries node.now) writes.now) }
    ensures sized { OnOk result (IsLevel E.cell T.entries T.is_sized T.size T.half level.new) }
{
    if writes.is_empty() {
        close(alloc, level)?;
        if level.last.last_cell().is_none() {
            let copy = shared(node)?;
            level.nodes.push(copy)?;
            return Ok(());
        }
    }
    add_part(alloc, level, &node.part, writes)
}

// Adds the entries of a part with these writes.
fn add_part<E: Stored, T: Part<E>>(
    alloc: Global,
    level: &mut Level<T>,
    part: &T,
    writes: &[E],
) -> Result<(), AllocError>
    requires sized { IsLevel E.cell T.entries T.is_sized T.size T.half level.old }
    requires part { T.is_sized part.now }
    requires rising { IsRising E.cell (T.entries part.now) }
    requires writes { IsRising E.cell writes.now }
    ensures entries { OnOk result (level_entries T.entries level.new ≡ level_entries T.entries level.old
        ++ after_entries E.cell E.is_gone (T.entries part.now) writes.now) }
    ensures sized { OnOk result (IsLevel E.cell T.entries T.is_sized T.size T.half level.new) }
{
    level.last.add_changed(alloc, part, writes)?;
    split(alloc, &mut level.nodes, &mut level.last)
}

// Makes a node of the last part, if it is large enough.
fn close<E: Stored, T: Part<E>>(alloc: Global, level: &mut Level<T>) -> Result<(), AllocError>
    requires { IsLevel E.cell T.entries T.is_sized T.size T.half level.old }
    ensures entries { OnOk result (level_entries T.entries level.new ≡ level_entries T.entries level.old) }
    ensures sized { OnOk result (IsLevel E.cell T.entries T.is_sized T.size T.half level.new) }
{
    if level.last.is_large() {
        let part = mem::replace(&mut level.last, T::new(alloc));
        add(alloc, &mut level.nodes, part)?;
    }
    Ok(())
}

// Makes nodes of the front of a part, until it isn't too large to be one itself.
fn split<E: Stored, T: Part<E>>(
    alloc: Global,
    nodes: &mut Vec<Node<T>>,
    part: &mut T,
) -> Result<(), AllocError>
    requires nodes { AreNodes E.cell T.entries T.is_sized T.size T.half nodes.old.items }
    requires sized { T.is_sized part.old }
    ensures entries { OnOk result (flat_map (entries_under T.entries) nodes.new.items ++ T.entries part.new ≡
        flat_map (entries_under T.entries) nodes.old.items ++ T.entries part.old) }
    ensures nodes { OnOk result (AreNodes E.cell T.entries T.is_sized T.size T.half nodes.new.items) }
    ensures sized { OnOk result (T.is_sized part.new) }
    ensures short { OnOk result (T.size part.new < 2 * T.half) }
{
    while part.is_long() {
        let front = part.cut(alloc)?;
        add(alloc, nodes, front)?;
    }
    Ok(())
}

// Adds a node of this part, unless it has no entry.
fn add<E: Stored, T: Part<E>>(
    alloc: Global,
    nodes: &mut Vec<Node<T>>,
    part: T,
) -> Result<(), AllocError>
    requires nodes { AreNodes E.cell T.entries T.is_sized T.size T.half nodes.old.items }
    requires sized { T.is_sized part }
    requires least { T.half ≤ T.size part }
    requires most { T.size part < 2 * T.half }
    ensures entries { OnOk result (flat_map (entries_under T.entries) nodes.new.items ≡
        flat_map (entries_under T.entries) nodes.old.items ++ T.entries part) }
    ensures nodes { OnOk result (AreNodes E.cell T.entries T.is_sized T.size T.half nodes.new.items) }
{
    let Some(last) = part.last_cell() else {
        return Ok(());
    };
    let node = node_of(alloc, last, part)?;
    nodes.push(node)?;
    Ok(())
}
