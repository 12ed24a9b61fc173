ghost use Rattle.std.specs.Prelude.{◌≡◌, ◌∷◌, ◌++◌, map, IfOk, OnOk};
ghost use Rattle.std.specs.List.{flat_map};
ghost use Rattle.view_query.specs.Views.{lines};
ghost use Rattle.view_query.specs.Inside.Lines.{has_empty};

use crate::shape::Axis;
use lists::ListOf;
use std::alloc::{AllocError, Global};

/// The lines along axes, each with one element of each axis. The last axis runs fastest.
pub(crate) fn lines(alloc: Global, axes: &[Axis]) -> Result<Vec<ListOf<u32>>, AllocError>
    ensures { IfOk result (λ all. all.items ≡ lines axes.now) }
{
    // the other axes may have more combinations than there is memory for
    if has_empty(axes) {
        Ok(Vec::new(alloc))
    } else {
        all_lines(alloc, axes)
    }
}

/// Whether an axis has no element.
pub(crate) fn has_empty(axes: &[Axis]) -> bool
    ensures { result ≡ has_empty axes.now }
{
    axes.iter().any(|axis| axis.elements.as_slice().is_empty())
}

fn all_lines(alloc: Global, axes: &[Axis]) -> Result<Vec<ListOf<u32>>, AllocError>
    ensures { IfOk result (λ all. all.items ≡ lines axes.now) }
{
    match axes.split_first() {
        None => Ok(vec![in alloc; ListOf::new(Vec::new(alloc))]?),
        Some((first, further)) => {
            let later = all_lines(alloc, further)?;
            each_with(alloc, first.elements.as_slice(), &later)
        }
    }
}

// Each of these elements in front of each of these lines.
fn each_with(
    alloc: Global,
    elements: &[u32],
    later: &[ListOf<u32>],
) -> Result<Vec<ListOf<u32>>, AllocError>
    ensures { IfOk result (λ all. all.items
        ≡ flat_map (λ element. map (λ line. element ∷ line) later.now) elements.now) }
{
    let mut all = Vec::new(alloc);
    for element in elements {
        push_with(alloc, *element, later, &mut all)?;
    }
    Ok(all)
}

// Adds these lines with an element in front.
fn push_with(
    alloc: Global,
    element: u32,
    later: &[ListOf<u32>],
    all: &mut Vec<ListOf<u32>>,
) -> Result<(), AllocError>
    ensures { OnOk result (all.new.items ≡ all.old.items ++ map (λ line. element ∷ line) later.now) }
{
    for line in later {
        let longer = line_of(alloc, element, line.as_slice())?;
        all.push(longer)?;
    }
    Ok(())
}

fn line_of(alloc: Global, element: u32, line: &[u32]) -> Result<ListOf<u32>, AllocError>
    ensures { IfOk result (λ longer. longer ≡ element ∷ line.now) }
{
    let mut longer = vec![in alloc; element]?;
    longer.extend_from_slice(line)?;
    Ok(ListOf::new(longer))
}
