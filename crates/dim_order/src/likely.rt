ghost use Rattle.std.specs.Prelude.{◌<◌, ◌^◌, length};

use crate::Components;
use crate::joining::Joining;
use std::alloc::{AllocError, Global};

/// Elements in an order in which each can mostly join when its turn comes, found in one walk over the components. It is
/// a guess, and no answer rests on it: what it misses joins in a later round.
pub fn likely_order(
    alloc: Global,
    joining: Joining,
    lists: &[Components],
) -> Result<Vec<u32>, AllocError>
    requires few { length lists.now < 2 ^ 32 }
{
    let parents = parents_of(alloc, lists)?;
    let mut waiting = waiting_for(alloc, joining, lists)?;
    let mut queue = first_in_turn(alloc, joining, lists)?;
    for turn in 0..lists.len() {
        let Some(element) = queue.get(turn).copied() else {
            break;
        };
        if let Some(above) = parents.get(element as usize) {
            release(above, &mut waiting, &mut queue)?;
        }
    }
    Ok(queue)
}

/// The elements that each element is a component of.
pub fn parents_of(alloc: Global, lists: &[Components]) -> Result<Vec<Vec<u32>>, AllocError>
    requires few { length lists.now < 2 ^ 32 }
{
    let mut parents = Vec::with_capacity(alloc, lists.len())?;
    for _ in 0..lists.len() {
        parents.push(Vec::new(alloc))?;
    }
    for element in 0..lists.len() {
        add_parent(element as u32, lists[element].as_slice(), &mut parents)?;
    }
    Ok(parents)
}

fn add_parent(
    element: u32,
    parts: &[(u32, i64)],
    parents: &mut Vec<Vec<u32>>,
) -> Result<(), AllocError> {
    for (part, _) in parts {
        if let Some(above) = parents.get_mut(*part as usize) {
            above.push(element)?;
        }
    }
    Ok(())
}

// How many components each element waits for.
fn waiting_for(
    alloc: Global,
    joining: Joining,
    lists: &[Components],
) -> Result<Vec<usize>, AllocError> {
    let mut waiting = Vec::with_capacity(alloc, lists.len())?;
    for list in lists {
        waiting.push(match joining {
            Joining::AfterAllParts => list.as_slice().len(),
            Joining::WhenLeadingTo(_) => 1,
        })?;
    }
    Ok(waiting)
}

// The elements with which joining begins.
fn first_in_turn(
    alloc: Global,
    joining: Joining,
    lists: &[Components],
) -> Result<Vec<u32>, AllocError>
    requires few { length lists.now < 2 ^ 32 }
{
    let mut first = Vec::new(alloc);
    if let Joining::WhenLeadingTo(target) = joining {
        first.push(target)?;
        return Ok(first);
    }
    for element in 0..lists.len() {
        if lists[element].as_slice().is_empty() {
            first.push(element as u32)?;
        }
    }
    Ok(first)
}

// Each of these elements waits for one component less, and comes into the queue when it waits for no more.
fn release(above: &[u32], waiting: &mut [usize], queue: &mut Vec<u32>) -> Result<(), AllocError> {
    for parent in above {
        if let Some(count) = waiting.get_mut(*parent as usize) {
            if *count == 1 {
                queue.push(*parent)?;
            }
            *count = count.saturating_sub(1);
        }
    }
    Ok(())
}
