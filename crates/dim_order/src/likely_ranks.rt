ghost use Rattle.std.specs.Prelude.{◌<◌, ◌^◌, length};

use crate::Components;
use crate::likely::parents_of;
use std::alloc::{AllocError, Global};

// What a walk up from an element to what it is a component of does next.
#[derive(Clone, Copy)]
enum Turn {
    // Goes on from this element, unless it has done so.
    Enter(u32),
    // Is done with all above this element.
    Leave(u32),
}

/// A rank from 1 up for each element, the same for two elements exactly where each is reached from the other, and
/// otherwise less for the one that is reached. They are found in one walk up and one down, in which the element that
/// the first was done with last goes first. It is a guess, and no answer rests on it.
pub fn likely_ranks(alloc: Global, lists: &[Components]) -> Result<Vec<u32>, AllocError>
    requires few { length lists.now < 2 ^ 32 }
{
    let steps = steps_of(lists);
    let mut left = left_going_up(alloc, lists, steps)?;
    let mut ranks = vec![in alloc; 0; lists.len()]?;
    for rank in 0..lists.len() {
        let Some(element) = left.pop() else {
            break;
        };
        rank_below(alloc, lists, element, rank as u32 + 1, steps, &mut ranks)?;
    }
    Ok(ranks)
}

// The most turns that a walk takes: it enters each element for itself and for each time that it is named, and leaves
// it once.
fn steps_of(lists: &[Components]) -> usize {
    let mut steps: usize = 0;
    for list in lists {
        steps = steps
            .saturating_add(list.as_slice().len())
            .saturating_add(2);
    }
    steps
}

// All elements in the order in which a walk up is done with them.
fn left_going_up(alloc: Global, lists: &[Components], steps: usize) -> Result<Vec<u32>, AllocError>
    requires few { length lists.now < 2 ^ 32 }
{
    let parents = parents_of(alloc, lists)?;
    let mut entered = vec![in alloc; false; lists.len()]?;
    let mut left = Vec::with_capacity(alloc, lists.len())?;
    let mut turns = Vec::with_capacity(alloc, lists.len())?;
    for element in 0..lists.len() {
        turns.push(Turn::Enter(element as u32))?;
    }
    for _ in 0..steps {
        match turns.pop() {
            Some(Turn::Enter(element)) => enter(element, &parents, &mut entered, &mut turns)?,
            Some(Turn::Leave(element)) => left.push(element)?,
            None => break,
        }
    }
    Ok(left)
}

fn enter(
    element: u32,
    parents: &[Vec<u32>],
    entered: &mut [bool],
    turns: &mut Vec<Turn>,
) -> Result<(), AllocError> {
    let (Some(is_entered), Some(above)) = (
        entered.get_mut(element as usize),
        parents.get(element as usize),
    ) else {
        return Ok(());
    };
    if *is_entered {
        return Ok(());
    }
    *is_entered = true;
    turns.push(Turn::Leave(element))?;
    for parent in above {
        turns.push(Turn::Enter(*parent))?;
    }
    Ok(())
}

// Gives this rank to an element and to all below it that have none.
fn rank_below(
    alloc: Global,
    lists: &[Components],
    element: u32,
    rank: u32,
    steps: usize,
    ranks: &mut [u32],
) -> Result<(), AllocError> {
    let mut waiting = Vec::new(alloc);
    waiting.push(element)?;
    for _ in 0..steps {
        let Some(next) = waiting.pop() else {
            break;
        };
        let (Some(given), Some(list)) = (ranks.get_mut(next as usize), lists.get(next as usize))
        else {
            continue;
        };
        if *given == 0 {
            *given = rank;
            wait_for(list.as_slice(), &mut waiting)?;
        }
    }
    Ok(())
}

fn wait_for(parts: &[(u32, i64)], waiting: &mut Vec<u32>) -> Result<(), AllocError> {
    for (part, _) in parts {
        waiting.push(*part)?;
    }
    Ok(())
}
