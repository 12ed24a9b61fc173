ghost use Rattle.std.specs.Prelude.{◌≡◌, ℕ, ◌+◌, ◌<◌, ◌≤◌, ◌^◌, [], ◌∷◌, IfSome, IfNone, MatchOption, unsigned_abs};
ghost use Rattle.cell_store.specs.Entries.{cells_of};
ghost use Rattle.cube_fixed.specs.Total.{with_term, value_of};
ghost use Rattle.cube_space.specs.Cells.{IsCell, cube_of};
ghost use Rattle.cube_space.specs.Layout.{most_model_cells};
ghost use Rattle.rule_model.specs.Weights.{AreWeightsOf, weight, weight_product, most_weight_product};
ghost use Rattle.stored_laws.specs.Stored.{stored_in};
ghost use Rattle.sparse_sum.specs.Live.{live_from};
ghost use Rattle.sparse_sum.specs.Walking.{begun, left};

use crate::candidates::{leaf_from, weight_of};
use crate::live::next_live;
use cell_store::{CellSet, Store};
use cube_fixed::{Money, Sum, Value};
use cube_space::Space;
use dim_weights::Weights;
use std::marker::Model;

/// A stored or fed leaf cell below a cell.
#[derive(Clone, Copy, PartialEq, Eq)]
pub struct Leaf {
    pub cell: u64,
    /// How often it counts.
    pub weight: i64,
    /// What is stored in it: None where it is fed and not stored.
    pub stored: Option<Money>,
}

/// A walk over the stored or fed leaf cells below a cell, from the least upwards, with the sum of the values that it is
/// given. All calls of a walk take the same space, weights, stored and fed cells.
#[derive(Drop)]
pub struct Walk {
    cell: u64,
    from: u64,
    sum: Sum,
}

impl Model for Walk {
    ghost use Rattle.sparse_sum.specs.Walking.{Progress};

    ghost Value = { Progress };

    ghost view = { λ w. record { cell = w.cell; from = w.from; total = w.sum } };
}

impl Walk {
    /// A walk that begins.
    pub fn at(cell: u64) -> Walk
        ensures { result ≡ begun cell }
    {
        Walk {
            cell,
            from: 0,
            sum: Sum::new(),
        }
    }

    /// The next leaf cell, with its weight and what is stored in it. None where no more is left.
    pub fn step<W: CellSet>(
        &mut self,
        space: &Space,
        weights: &[Weights],
        stored: &Store,
        fed: &W,
    ) -> Option<Leaf>
        requires weights { AreWeightsOf space.now.dimensions weights.now }
        requires cell { IsCell space.now self.old.cell }
        requires product { weight_product space.now (cube_of space.now self.old.cell) ≤ most_weight_product }
        ensures left { MatchOption result (left space.now (cells_of stored.now) (W.cells fed.now) self.old ≡ [])
            (λ leaf. left space.now (cells_of stored.now) (W.cells fed.now) self.old
            ≡ (leaf.cell, leaf.weight) ∷ left space.now (cells_of stored.now) (W.cells fed.now) self.new) }
        ensures weight { IfSome result (λ leaf. leaf.weight ≡ weight space.now self.old.cell leaf.cell) }
        ensures stored { IfSome result (λ leaf. leaf.stored ≡ stored_in stored.now leaf.cell) }
        ensures leaf { IfSome result (λ leaf. IsCell space.now leaf.cell) }
        ensures size { IfSome result (λ leaf. unsigned_abs leaf.weight ≤ most_weight_product) }
        ensures ended { IfNone result (self.new ≡ self.old) }
        ensures cell { self.new.cell ≡ self.old.cell }
        ensures total { self.new.total ≡ self.old.total }
    {
        match next_leaf(space, weights, stored, fed, self.cell, self.from) {
            Some(leaf) => {
                self.from = leaf.cell + 1;
                Some(leaf)
            }
            None => None,
        }
    }

    /// Adds the value of a leaf cell of this weight.
    pub fn add(&mut self, weight: i64, value: Value)
        requires size { unsigned_abs weight ≤ most_weight_product }
        requires room { self.old.total.terms < 2 ^ 32 }
        ensures total { self.new.total ≡ with_term self.old.total weight value }
        ensures cell { self.new.cell ≡ self.old.cell }
        ensures from { self.new.from ≡ self.old.from }
    {
        self.sum.add(weight, value);
    }

    /// The next leaf cell, for callers that need no more of it. None where no more is left.
    pub fn next<W: CellSet>(
        &mut self,
        space: &Space,
        weights: &[Weights],
        stored: &Store,
        fed: &W,
    ) -> Option<u64>
        requires weights { AreWeightsOf space.now.dimensions weights.now }
        requires cell { IsCell space.now self.old.cell }
        requires product { weight_product space.now (cube_of space.now self.old.cell) ≤ most_weight_product }
        ensures left { MatchOption result (left space.now (cells_of stored.now) (W.cells fed.now) self.old ≡ [])
            (λ cell. left space.now (cells_of stored.now) (W.cells fed.now) self.old
            ≡ (cell, weight space.now self.old.cell cell)
            ∷ left space.now (cells_of stored.now) (W.cells fed.now) self.new) }
        ensures leaf { IfSome result (λ cell. IsCell space.now cell) }
        ensures ended { IfNone result (self.new ≡ self.old) }
        ensures cell { self.new.cell ≡ self.old.cell }
        ensures total { self.new.total ≡ self.old.total }
    {
        match self.step(space, weights, stored, fed) {
            Some(leaf) => Some(leaf.cell),
            None => None,
        }
    }

    /// Adds the value of a cell, as often as it counts: not at all where it isn't a leaf cell below.
    pub fn give(&mut self, cell: u64, value: Value, space: &Space, weights: &[Weights])
        requires weights { AreWeightsOf space.now.dimensions weights.now }
        requires cell { IsCell space.now self.old.cell }
        requires product { weight_product space.now (cube_of space.now self.old.cell) ≤ most_weight_product }
        requires given { IsCell space.now cell }
        requires room { self.old.total.terms < 2 ^ 32 }
        ensures total { self.new.total ≡ with_term self.old.total (weight space.now self.old.cell cell) value }
        ensures cell { self.new.cell ≡ self.old.cell }
        ensures from { self.new.from ≡ self.old.from }
    {
        let weight = weight_of(space, weights, self.cell, cell);
        self.add(weight, value);
    }

    /// The weighted sum of the values that were given, which is exact and tested here, once.
    pub fn value(&self) -> Value
        ensures { result ≡ value_of self.now.total }
    {
        self.sum.value()
    }
}

// The first stored or fed leaf cell below a cell, at or above a number. It jumps from each stored or fed cell to the
// next leaf cell that counts, and from there to the next stored or fed one, until both are the same.
fn next_leaf<W: CellSet>(
    space: &Space,
    weights: &[Weights],
    stored: &Store,
    fed: &W,
    cell: u64,
    from: u64,
) -> Option<Leaf>
    requires weights { AreWeightsOf space.now.dimensions weights.now }
    requires cell { IsCell space.now cell }
    requires product { weight_product space.now (cube_of space.now cell) ≤ most_weight_product }
    ensures left { MatchOption result (live_from space.now (cells_of stored.now) (W.cells fed.now) cell from ≡ [])
        (λ leaf. live_from space.now (cells_of stored.now) (W.cells fed.now) cell from
        ≡ (leaf.cell, leaf.weight)
        ∷ live_from space.now (cells_of stored.now) (W.cells fed.now) cell (leaf.cell + 1)) }
    ensures weight { IfSome result (λ leaf. leaf.weight ≡ weight space.now cell leaf.cell) }
    ensures stored { IfSome result (λ leaf. leaf.stored ≡ stored_in stored.now leaf.cell) }
    ensures leaf { IfSome result (λ leaf. IsCell space.now leaf.cell) }
    ensures few { IfSome result (λ leaf. leaf.cell < most_model_cells) }
    ensures size { IfSome result (λ leaf. unsigned_abs leaf.weight ≤ most_weight_product) }
{
    let _cells = space.size();
    let mut from = from;
    'jumps: while let Some((next, number)) = next_live(stored, fed, from) {
        let Some((leaf, weight)) = leaf_from(space, weights, cell, next) else {
            return None;
        };
        if leaf == next {
            return Some(Leaf {
                cell: leaf,
                weight,
                stored: number,
            });
        }
        from = leaf;
    }
    None
}
