ghost use Rattle.std.specs.Prelude.{◌≡◌, ◌==◌, ◌<◌, ◌||◌, ℕ, true, false, length, get_or, All, IfOk};
ghost use Rattle.std.specs.List.{list_any};
ghost use Rattle.dim_core.specs.Outline.{IsDimension};
ghost use Rattle.bind_arguments.specs.Family.{is_component};
ghost use Rattle.bind_arguments.specs.Numbers.{is_below};

use dim_core::Dimension;
use std::alloc::{AllocError, Global};

// Marks these components.
fn mark(marks: &mut Vec<bool>, parts: &[(u32, i64)])
    requires { All (λ part. part.0 < length marks.old.items) parts.now }
    ensures len { length marks.new.items ≡ length marks.old.items }
    ensures marks { (element : ℕ) → element < length marks.new.items → get_or marks.new.items element false
        ≡ (get_or marks.old.items element false || list_any (λ part. part.0 == element) parts.now) }
{
    for part in parts {
        marks[part.0 as usize] = true;
    }
}

/// Which elements are components of this one.
pub(crate) fn components_of(
    alloc: Global,
    dimension: &Dimension,
    parent: u32,
) -> Result<Vec<bool>, AllocError>
    requires { parent < length dimension.now.elements }
    ensures len { IfOk result (λ marks. length marks.items ≡ length dimension.now.elements) }
    ensures marks { IfOk result (λ marks. (element : ℕ) → element < length marks.items
        → get_or marks.items element false ≡ is_component dimension.now parent element) }
{
    let mut marks = Vec::from_elem(alloc, false, dimension.len() as usize)?;
    mark(&mut marks, dimension.components(parent));
    Ok(marks)
}

// Marks the components of an element where it is the one above, or marked itself.
fn take_turn(marks: &mut Vec<bool>, dimension: &Dimension, above: u32, element: u32)
    requires valid { IsDimension dimension.now }
    requires element { element < length dimension.now.elements }
    requires len { length marks.old.items ≡ length dimension.now.elements }
    ensures len { length marks.new.items ≡ length marks.old.items }
    ensures taken { (element == above || get_or marks.old.items element false) ≡ true
        → (other : ℕ) → other < length marks.new.items → get_or marks.new.items other false
        ≡ (get_or marks.old.items other false || is_component dimension.now element other) }
    ensures passed { (element == above || get_or marks.old.items element false) ≡ false
        → marks.new.items ≡ marks.old.items }
{
    if element == above || marks[element as usize] {
        mark(marks, dimension.components(element));
    }
}

/// Which elements lie below this one. Those above are looked at first, so each is looked at once.
pub fn elements_below(
    alloc: Global,
    dimension: &Dimension,
    above: u32,
) -> Result<Vec<bool>, AllocError>
    requires { above < length dimension.now.elements }
    ensures len { IfOk result (λ marks. length marks.items ≡ length dimension.now.elements) }
    ensures marks { IfOk result (λ marks. (element : ℕ) → element < length marks.items
        → get_or marks.items element false ≡ is_below dimension.now above element) }
{
    let mut marks = Vec::from_elem(alloc, false, dimension.len() as usize)?;
    let order = dimension.order();
    for done in 0..order.len() {
        let element = order[order.len() - 1 - done];
        take_turn(&mut marks, dimension, above, element);
    }
    Ok(marks)
}
