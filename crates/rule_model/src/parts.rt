ghost use Rattle.std.specs.Prelude.{◌≡◌, ◌<◌, ◌^◌, ◌==◌, length, IfSome};
ghost use Rattle.std.specs.List.{list_any};
ghost use Rattle.std.specs.List.Sorted.{IsStrictlyIncreasing};
ghost use Rattle.std.specs.Option.{option_copied};
ghost use Rattle.rule_model.specs.Areas.{in_set, in_sets};
ghost use Rattle.rule_model.specs.Inside.Parts.{AreSets, HaveSets, part_of_kind, part_for, first_part};

use crate::rules::Statement;
use lists::ListOf;
use rule_laws::Formula;

/// Whether an element is in a set of an area.
fn in_set(set: &Option<ListOf<u32>>, element: u32) -> bool
    requires { IfSome set.now IsStrictlyIncreasing }
    ensures { result ≡ in_set set.now element }
{
    match set {
        Some(listed) => is_listed(listed.as_slice(), element),
        None => true,
    }
}

// Whether a rising list has this element.
fn is_listed(listed: &[u32], element: u32) -> bool
    requires { IsStrictlyIncreasing listed.now }
    ensures { result ≡ list_any (λ e. e == element) listed.now }
{
    listed.binary_search(&element).is_ok()
}

/// Whether each of these elements is in the set of its dimension.
fn in_sets(sets: &[Option<ListOf<u32>>], elements: &[u32]) -> bool
    requires { AreSets (length elements.now) sets.now }
    ensures { result ≡ in_sets sets.now elements.now }
{
    for place in 0..sets.len() {
        if !in_set(&sets[place], elements[place]) {
            return false;
        }
    }
    true
}

/// The formula of a statement for a kind of cell.
pub fn part_of_kind(statement: &Statement, is_leaf: bool) -> Option<&Formula>
    ensures { option_copied result ≡ part_of_kind statement.now is_leaf }
{
    if is_leaf {
        statement.leaf.as_ref()
    } else {
        statement.cons.as_ref()
    }
}

/// The formula of a statement for a kind of cell, where its area has these elements.
#[tactic(auto, unfolding(crate::specs::Inside::Parts::part_for))]
pub fn part_for<'a>(
    statement: &'a Statement,
    elements: &[u32],
    is_leaf: bool,
) -> Option<&'a Formula>
    requires { AreSets (length elements.now) statement.now.area.sets }
    ensures { option_copied result ≡ part_for statement.now elements.now is_leaf }
{
    if in_sets(statement.area.sets.as_slice(), elements) {
        part_of_kind(statement, is_leaf)
    } else {
        None
    }
}

/// The first statement from a place on that has a part for these elements.
pub fn first_part(
    statements: &[Statement],
    elements: &[u32],
    is_leaf: bool,
    from: usize,
) -> Option<u32>
    requires sets { HaveSets (length elements.now) statements.now }
    requires few { length statements.now < 2 ^ 32 }
    ensures value { result ≡ first_part statements.now elements.now is_leaf from }
    ensures within { IfSome result (λ place. place < length statements.now) }
{
    for place in from..statements.len() {
        if part_for(&statements[place], elements, is_leaf).is_some() {
            return Some(place as u32);
        }
    }
    None
}
