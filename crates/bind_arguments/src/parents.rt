ghost use Rattle.std.specs.Prelude.{◌≡◌, ◌==◌, ◌<◌, ◌++◌, ◌∷◌, ℕ, List, [], All, length, IfOk, OnOk};
ghost use Rattle.std.specs.List.{list_any};
ghost use Rattle.bind_arguments.specs.Family.{parents_of};
ghost use Rattle.bind_arguments.specs.Inside.Kin.{with_parent, kin_at};

use dim_core::Dimension;
use std::alloc::{AllocError, Global};

// Adds a parent to these, unless it is the last of them.
fn add_parent(parents: &mut Vec<u32>, parent: u32) -> Result<(), AllocError>
    ensures added { All (λ other. other < parent) parents.old.items
        → OnOk result (parents.new.items ≡ parents.old.items ++ parent ∷ []) }
    ensures there { (before : List ℕ) → parents.old.items ≡ before ++ parent ∷ []
        → OnOk result (parents.new.items ≡ parents.old.items) }
{
    if let Some(last) = parents.last() {
        if *last == parent {
            return Ok(());
        }
    }
    parents.push(parent)?;
    Ok(())
}

// Adds a parent to those of each of its components.
fn add_to_parts(
    parents: &mut Vec<Vec<u32>>,
    parent: u32,
    parts: &[(u32, i64)],
) -> Result<(), AllocError>
    requires within { All (λ part. part.0 < length parents.old.items) parts.now }
    requires before { (element : ℕ) → element < length parents.old.items
        → All (λ other. other < parent) (kin_at parents.old.items element) }
    ensures len { OnOk result (length parents.new.items ≡ length parents.old.items) }
    ensures kin { OnOk result ((element : ℕ) → element < length parents.new.items → kin_at parents.new.items element
        ≡ with_parent (kin_at parents.old.items element) parent (list_any (λ part. part.0 == element) parts.now)) }
{
    for part in parts {
        add_parent(&mut parents[part.0 as usize], parent)?;
    }
    Ok(())
}

// No parents yet of so many elements.
fn no_parents(alloc: Global, len: usize) -> Result<Vec<Vec<u32>>, AllocError>
    ensures len { IfOk result (λ parents. length parents.items ≡ len) }
    ensures none { IfOk result (λ parents. (element : ℕ) → kin_at parents.items element ≡ []) }
{
    let mut parents = Vec::with_capacity(alloc, len)?;
    'room: while parents.len() < len {
        parents.push(Vec::new(alloc))?;
    }
    Ok(parents)
}

/// The consolidations that have each element as a component, in the order of the dimension, each of them once.
pub(crate) fn parents_over(
    alloc: Global,
    dimension: &Dimension,
) -> Result<Vec<Vec<u32>>, AllocError>
    ensures len { IfOk result (λ parents. length parents.items ≡ length dimension.now.elements) }
    ensures parents { IfOk result (λ parents. (element : ℕ) → element < length parents.items
        → kin_at parents.items element ≡ parents_of dimension.now element) }
{
    let mut parents = no_parents(alloc, dimension.len() as usize)?;
    for parent in 0..dimension.len() {
        add_to_parts(&mut parents, parent, dimension.components(parent))?;
    }
    Ok(parents)
}
