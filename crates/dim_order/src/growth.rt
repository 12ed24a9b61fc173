ghost use Rattle.std.specs.Prelude.{◌≡◌, ◌<◌, ◌⊎◌, ◌^◌, ◌==◌, ◌||◌, ℕ, length, IfOk, OnOk};
ghost use Rattle.std.specs.List.{list_all, list_any};
ghost use Rattle.dim_order.specs.Members.{is_among};
ghost use Rattle.dim_order.specs.Inside.Growth.{is_ready, IsGrown, IsSettled, AreSettled};

use crate::Components;
use crate::joining::Joining;
use crate::likely::likely_order;
use crate::members::Members;
use std::alloc::{AllocError, Global};

/// The longest list that the rule lets grow: no further element can join it.
pub fn grow(alloc: Global, joining: Joining, lists: &[Components]) -> Result<Members, AllocError>
    requires few { length lists.now < 2 ^ 32 }
    ensures grown { IfOk result (λ members. IsGrown joining lists.now members.list) }
    ensures settled { IfOk result (λ members. AreSettled joining lists.now members.list) }
{
    let mut members = Members::new(alloc, lists.len())?;
    let likely = likely_order(alloc, joining, lists)?;
    visit_each(joining, lists, &likely, &mut members)?;
    for round in 0..lists.len() + 1 {
        let before = members.len();
        visit_all(joining, lists, &mut members)?;
        if members.len() == before {
            return Ok(members);
        }
    }
    unreachable!()
}

// Lets those of these elements join, in turn, that can.
fn visit_each(
    joining: Joining,
    lists: &[Components],
    elements: &[u32],
    members: &mut Members,
) -> Result<(), AllocError>
    requires few { length lists.now < 2 ^ 32 }
    requires room { members.old.room ≡ length lists.now }
    requires grown { IsGrown joining lists.now members.old.list }
    ensures room { members.new.room ≡ length lists.now }
    ensures grown { IsGrown joining lists.now members.new.list }
{
    'elements: for element in elements {
        if (*element as usize) < lists.len() {
            visit(joining, lists, *element, members)?;
        }
    }
    Ok(())
}

fn visit_all(
    joining: Joining,
    lists: &[Components],
    members: &mut Members,
) -> Result<(), AllocError>
    requires few { length lists.now < 2 ^ 32 }
    requires room { members.old.room ≡ length lists.now }
    requires grown { IsGrown joining lists.now members.old.list }
    ensures room { members.new.room ≡ length lists.now }
    ensures grown { IsGrown joining lists.now members.new.list }
    ensures visited { OnOk result ((length members.old.list < length members.new.list)
        ⊎ (members.new.list ≡ members.old.list) × AreSettled joining lists.now members.new.list) }
{
    for element in 0..lists.len() {
        visit(joining, lists, element as u32, members)?;
    }
    Ok(())
}

fn visit(
    joining: Joining,
    lists: &[Components],
    element: u32,
    members: &mut Members,
) -> Result<(), AllocError>
    requires within { element < length lists.now }
    requires room { members.old.room ≡ length lists.now }
    requires grown { IsGrown joining lists.now members.old.list }
    ensures room { members.new.room ≡ length lists.now }
    ensures grown { IsGrown joining lists.now members.new.list }
    ensures visited { OnOk result ((length members.old.list < length members.new.list)
        ⊎ (members.new.list ≡ members.old.list) × IsSettled joining lists.now members.new.list element) }
{
    if members.has(element) {
        return Ok(());
    }
    if !is_ready(joining, lists[element as usize].as_slice(), members) {
        return Ok(());
    }
    members.add(element)?;
    Ok(())
}

fn is_ready(joining: Joining, parts: &[(u32, i64)], members: &Members) -> bool
    ensures { result ≡ is_ready joining (is_among members.now.list) parts.now }
{
    match joining {
        Joining::AfterAllParts => are_all_inside(parts, members),
        Joining::WhenLeadingTo(target) => is_one_leading(parts, target, members),
    }
}

fn are_all_inside(parts: &[(u32, i64)], members: &Members) -> bool
    ensures { result ≡ list_all (λ part. is_among members.now.list part.0) parts.now }
{
    parts.iter().all(|part| members.has(part.0))
}

fn is_one_leading(parts: &[(u32, i64)], target: u32, members: &Members) -> bool
    ensures { result ≡ list_any (λ part. (part.0 == target) || is_among members.now.list part.0) parts.now }
{
    parts
        .iter()
        .any(|part| part.0 == target || members.has(part.0))
}
