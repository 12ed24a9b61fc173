ghost use Rattle.std.specs.Prelude.{◌≡◌, ◌<◌, ◌≤◌, [], ◌∷◌, OnOk, length};
ghost use Rattle.cell_store.specs.Cells.{IsUnion};
ghost use Rattle.feed_map.specs.Inside.Gains.{few_leaves, most_totals};

use crate::growth::Growth;
use cell_store::PageSet;
use std::alloc::{AllocError, Global};

// The most totals that are kept as opened. The leaf cells of others are found again each time that one is named.
const MAX_TOTALS: u64 = 1_000_000;

// A total with no more leaf cells isn't kept: finding them again takes no longer.
const FEW_LEAVES: u64 = 64;

/// What is reached while feeders are followed: the cells that are known to be fed, and the totals that were opened, all
/// of whose leaf cells are among them.
#[derive(Drop)]
pub struct Reached {
    alloc: Global,
    pub growth: Growth,
    pub totals: PageSet,
}

impl Reached {
    /// These cells are known, and these totals opened.
    pub fn from(alloc: Global, known: PageSet, totals: PageSet) -> Reached
        ensures known { result.growth.known ≡ known }
        ensures opened { result.growth.opened.items ≡ [] }
        ensures found { result.growth.found.items ≡ [] }
        ensures totals { result.totals ≡ totals }
    {
        Reached {
            alloc,
            growth: Growth::from(alloc, known),
            totals,
        }
    }

    /// A total was opened, and so many leaf cells were found below it. It is kept where these are many, and there is
    /// room.
    pub fn keep(&mut self, total: u64, leaves: u64) -> Result<(), AllocError>
        ensures growth { self.new.growth ≡ self.old.growth }
        ensures kept { few_leaves < leaves → length self.old.totals < most_totals →
            OnOk result (IsUnion self.old.totals (total ∷ []) self.new.totals) }
        ensures few { leaves ≤ few_leaves → self.new.totals ≡ self.old.totals }
        ensures full { most_totals ≤ length self.old.totals → self.new.totals ≡ self.old.totals }
    {
        if leaves > FEW_LEAVES && self.totals.len() < MAX_TOTALS {
            self.totals = self.totals.with(self.alloc, &[total])?;
        }
        Ok(())
    }
}
