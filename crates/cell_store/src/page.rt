ghost use Rattle.std.specs.Prelude.{◌≡◌, ◌++◌, length, OnOk};
ghost use Rattle.cell_store.specs.Inside.Order.{kept_by};

use crate::order::Stored;
use crate::part::Part;
use crate::places::{above, count_below, first_at_least};
use std::alloc::{AllocError, Global};

/// The fewest entries of a page that versions share. It has fewer than twice as many.
pub const HALF_PAGE: usize = 32;

/// Entries in the order of their cells, which are copied where one changes.
#[derive(Drop)]
pub struct Page<E> {
    pub entries: Vec<E>,
}

impl<E: Stored> Part<E> for Page<E> {
    ghost use Rattle.cell_store.specs.declared.page.TheConstants.{HALF_PAGE};

    ghost entries = { λ page. page.entries.items };

    ghost is_sized = { λ _. Unit {0} };

    ghost size = { λ page. length page.entries.items };

    ghost half = { HALF_PAGE };

    fn new(alloc: Global) -> Page<E> {
        Page {
            entries: Vec::new(alloc),
        }
    }

    fn is_large(&self) -> bool {
        self.entries.len() >= HALF_PAGE
    }

    fn is_long(&self) -> bool {
        self.entries.len() >= 2 * HALF_PAGE
    }

    fn count(&self) -> Result<usize, AllocError> {
        Ok(self.entries.len())
    }

    fn last_cell(&self) -> Option<u64> {
        match self.entries.last() {
            Some(entry) => Some(entry.cell()),
            None => None,
        }
    }

    fn first_from(&self, cell: u64) -> Option<E> {
        first_at_least(&self.entries, cell)
    }

    fn add_changed(&mut self, _: Global, page: &Page<E>, writes: &[E]) -> Result<(), AllocError> {
        self.entries
            .reserve_exact(page.entries.len().saturating_add(writes.len()))?;
        let mut rest = page.entries.as_slice();
        for write in writes {
            let cell = write.cell();
            let below = count_below(rest, cell);
            add(&mut self.entries, &rest[..below], write)?;
            rest = above(rest, cell);
        }
        self.entries.extend_from_slice(rest)?;
        Ok(())
    }

    fn cut(&mut self, alloc: Global) -> Result<Page<E>, AllocError> {
        let back = self.entries.split_off(HALF_PAGE)?;
        let entries = Vec::from_slice(alloc, &self.entries)?;
        self.entries = back;
        Ok(Page { entries })
    }
}

// Adds these entries, and the write unless it takes its cell out.
fn add<E: Stored>(entries: &mut Vec<E>, more: &[E], write: &E) -> Result<(), AllocError>
    ensures { OnOk result (entries.new.items ≡ entries.old.items ++ (more.now ++ kept_by E.is_gone write.now)) }
{
    entries.extend_from_slice(more)?;
    if !write.is_gone() {
        entries.push(*write)?;
    }
    Ok(())
}
