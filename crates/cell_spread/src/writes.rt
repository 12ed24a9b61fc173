ghost use Rattle.std.specs.Prelude.{◌≡◌, IfOk};
ghost use Rattle.cube_space.specs.Cells.{IsCell};
ghost use Rattle.cell_spread.specs.Spread.{refusal_of, writes_of, IsAnsweredBy};

use crate::below::parts_of;
use crate::count::leaf_count;
use crate::fault::SpreadFault;
use crate::ruled::is_ruled;
use crate::shares::share_out;
use cell_store::Store;
use cube_fixed::Money;
use rule_model::Model;
use std::alloc::Global;

/// The most leaf cells that an amount is spread over.
pub const MAX_SPREAD: u64 = 250_000;

/// What each leaf cell below gets.
#[derive(Clone, Copy, Debug, PartialEq, Eq)]
pub enum How {
    /// The same as every other.
    Equal,
    /// In proportion to its stored number: none where that is 0.
    Proportional,
}

/// The writes that spread an amount over the leaf cells below a cell, by their numbers. Each cell gets its share,
/// rounded down to a millionth; what is then left of the amount goes to the first cells whose share isn't whole, a
/// millionth to each. The first fault that holds is the answer, in the order of [`SpreadFault`].
pub fn spread(
    alloc: Global,
    model: &Model,
    store: &Store,
    cell: u64,
    amount: Money,
    how: How,
) -> Result<Vec<(u64, Money)>, SpreadFault>
    requires { IsCell model.now.space cell }
    ensures writes { IfOk result (λ writes. writes.items ≡ writes_of model.now.space store.now cell amount how) }
    ensures answered { IsAnsweredBy (refusal_of model.now store.now cell amount how) result }
{
    if model.space().is_leaf(cell) {
        return Err(SpreadFault::IsALeaf);
    }
    let count = leaf_count(model, cell);
    if count > MAX_SPREAD {
        return Err(SpreadFault::SpreadLimit(count));
    }
    let parts = parts_of(alloc, model, store, cell, how)?;
    if is_ruled(model, cell) {
        return Err(SpreadFault::RuleDerived);
    }
    share_out(alloc, amount, &parts)
}
