ghost use Rattle.std.specs.Prelude.{◌≡◌, IfOk};
ghost use Rattle.cell_store.specs.Inside.Order.{IsRising, after_entries};

use crate::level::Level;
use crate::order::Stored;
use crate::page::Page;
use crate::part::Part;
use std::alloc::{AllocError, Global};

/// Entries in pages, under levels of nodes.
pub type Tree<E> = Level<Level<Level<Level<Level<Page<E>>>>>>;

/// The most writes that are made at once. More would make parts that are long to split.
const MAX_AT_ONCE: usize = 256;

/// A part with these writes, which come in the order of their cells. What has no write is shared.
pub fn changed<E: Stored, T: Part<E>>(
    alloc: Global,
    part: &T,
    writes: &[E],
) -> Result<T, AllocError>
    requires sized { T.is_sized part.now }
    requires rising { IsRising E.cell (T.entries part.now) }
    requires writes { IsRising E.cell writes.now }
    ensures entries { IfOk result (λ after. T.entries after ≡
        after_entries E.cell E.is_gone (T.entries part.now) writes.now) }
    ensures sized { IfOk result (λ after. T.is_sized after) }
{
    let (first, mut rest) = writes.split_at(writes.len().min(MAX_AT_ONCE));
    let mut after = changed_once(alloc, part, first)?;
    while !rest.is_empty() {
        let (next, later) = rest.split_at(rest.len().min(MAX_AT_ONCE));
        after = changed_once(alloc, &after, next)?;
        rest = later;
    }
    Ok(after)
}

// A part with these writes, which are made at once.
fn changed_once<E: Stored, T: Part<E>>(
    alloc: Global,
    part: &T,
    writes: &[E],
) -> Result<T, AllocError>
    requires sized { T.is_sized part.now }
    requires rising { IsRising E.cell (T.entries part.now) }
    requires writes { IsRising E.cell writes.now }
    ensures entries { IfOk result (λ after. T.entries after ≡
        after_entries E.cell E.is_gone (T.entries part.now) writes.now) }
    ensures sized { IfOk result (λ after. T.is_sized after) }
{
    let mut after = T::new(alloc);
    after.add_changed(alloc, part, writes)?;
    Ok(after)
}
