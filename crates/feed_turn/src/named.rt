ghost use Rattle.std.specs.Prelude.{◌≡◌, ◌<◌, ℕ, Some, false, filter, map, length, slice_index_or, IfOk};
ghost use Rattle.std.specs.Prelude.{[], ◌∷◌, ◌++◌, IfSome, OnOk};
ghost use Rattle.std.specs.List.{range_with_len};
ghost use Rattle.cover_laws.specs.Looking.{sent};
ghost use Rattle.feed_turn.specs.Named.{is_named, named_set};
ghost use Rattle.feed_turn.specs.Inside.Slots.{marked_at, has_each_leaf, marked_set};

use dim_core::Dimension;
use lists::ListOf;
use rule_laws::ElementMap;
use std::alloc::{AllocError, Global};

/// The elements of a dimension to which a map sends these leaves, as a set of an area: where each leaf of the dimension
/// is named, it has all elements.
#[tactic(auto, unfolding(crate::specs::Named::named_set))]
pub fn named_set(
    alloc: Global,
    dimension: &Dimension,
    to: &ElementMap,
    leaves: &[u32],
) -> Result<Option<ListOf<u32>>, AllocError>
    requires { (leaf element : ℕ) → sent to.now leaf ≡ Some element → element < length dimension.now.elements }
    ensures { IfOk result (λ set. set ≡ named_set dimension.now to.now leaves.now) }
{
    let mut marks = vec![in alloc; false; dimension.len() as usize]?;
    mark_named(&mut marks, to, leaves);
    marked_set(alloc, dimension, &marks)
}

// Marks the elements to which a map sends these leaves.
fn mark_named(marks: &mut [bool], to: &ElementMap, leaves: &[u32])
    requires within { (leaf element : ℕ) → sent to.now leaf ≡ Some element → element < length marks.old }
    requires clear { (x : ℕ) → slice_index_or marks.old x false ≡ false }
    ensures { marks.new ≡ map (is_named to.now leaves.now) (range_with_len 0 (length marks.old)) }
{
    'each: for leaf in leaves {
        mark(marks, to.get(*leaf as usize));
    }
}

// Marks an element, if there is one.
fn mark(marks: &mut [bool], element: Option<u32>)
    requires { IfSome element (λ x. x < length marks.old) }
    ensures { marks.new ≡ marked_at marks.old element }
{
    if let Some(element) = element {
        marks[element as usize] = true;
    }
}

// Whether each leaf of a dimension is marked.
fn has_each_leaf(dimension: &Dimension, marks: &[bool]) -> bool
    requires { length marks.now ≡ length dimension.now.elements }
    ensures { result ≡ has_each_leaf dimension.now marks.now }
{
    'each: for element in 0..dimension.len() {
        if dimension.is_leaf(element) && !marks[element as usize] {
            return false;
        }
    }
    true
}

// The elements that are marked, as a set of an area: where each leaf of the dimension is, it has all elements.
fn marked_set(
    alloc: Global,
    dimension: &Dimension,
    marks: &[bool],
) -> Result<Option<ListOf<u32>>, AllocError>
    requires { length marks.now ≡ length dimension.now.elements }
    ensures { IfOk result (λ set. set ≡ marked_set dimension.now marks.now) }
{
    if has_each_leaf(dimension, marks) {
        return Ok(None);
    }
    let named = marked(alloc, marks, dimension.len())?;
    Ok(Some(ListOf::new(named)))
}

// Those of so many elements that are marked, rising.
fn marked(alloc: Global, marks: &[bool], size: u32) -> Result<Vec<u32>, AllocError>
    requires { length marks.now ≡ size }
    ensures { IfOk result (λ found. found.items
        ≡ filter (λ e. slice_index_or marks.now e false) (range_with_len 0 size)) }
{
    let mut found = Vec::new(alloc);
    'each: for element in 0..size {
        push_marked(&mut found, marks, element)?;
    }
    Ok(found)
}

// Adds an element, if it is marked.
fn push_marked(found: &mut Vec<u32>, marks: &[bool], element: u32) -> Result<(), AllocError>
    requires { element < length marks.now }
    ensures { OnOk result
        (found.new.items ≡ found.old.items ++ filter (λ e. slice_index_or marks.now e false) (element ∷ [])) }
{
    if marks[element as usize] {
        found.push(element)?;
    }
    Ok(())
}
