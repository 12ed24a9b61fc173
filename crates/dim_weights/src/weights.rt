ghost use Rattle.std.specs.Prelude.{◌≡◌, ℕ, ◌<◌, ◌≤◌, ◌⊎◌, Err, pos, length, unsigned_abs, All, IfOk, IfSome, IfNone};
ghost use Rattle.std.specs.Prelude.{IsOkUnless};
ghost use Rattle.dim_core.specs.Outline.{Outline};
ghost use Rattle.dim_core.specs.Outline.{IsElement};
ghost use Rattle.dim_weights.specs.Coefficients.{coef};
ghost use Rattle.dim_weights.specs.Table.{IsWeightsOf, leaves_in, leaves_of, share, greatest_of, IsRising};
ghost use Rattle.dim_weights.specs.Refusal.{refusal_of};
ghost use Rattle.dim_weights.specs.Inside.Sums.{AreRows};
ghost use Rattle.dim_weights.specs.Coefficients.{most_coefficient};

use crate::alike::alike_of;
use crate::fault::WeightFault;
use crate::levels::elements_by_level;
use crate::sums::Sums;
use crate::table::{TableBuilder, greatest_of};
use dim_core::Dimension;
use lists::ListOf;
use std::alloc::Global;
use std::marker::Model;

/// The greatest size of a coefficient.
pub const MAX_COEFFICIENT: u64 = 1_000_000_000;

/// The most pairs of an element and a leaf that counts in it, of a dimension.
pub const MAX_PAIRS: usize = 4_000_000;

/// How much each leaf of a dimension counts in each element. Elements are named by their index.
#[derive(Drop)]
pub struct Weights {
    rows: Vec<ListOf<(u32, i64)>>,
    greatest: i64,
}

impl Model for Weights {
    ghost use Rattle.std.specs.Prelude.{ℕ, ℤ, List};
    ghost use Rattle.dim_weights.specs.Inside.Kept.{IsKept};

    ghost Value = { List (List (ℕ × ℤ)) };

    ghost view = { λ w. w.rows.items };

    ghost invariant = { λ w. IsKept w.rows.items w.greatest };
}

impl Weights {
    /// The coefficients of a dimension.
    pub fn of(alloc: Global, dimension: &Dimension) -> Result<Weights, WeightFault>
        ensures weights { IfOk result (λ weights. IsWeightsOf dimension.now weights) }
        ensures refused { IfSome (refusal_of dimension.now) (λ fault. (result ≡ Err fault)
            ⊎ (result ≡ Err WeightFault.Memory)) }
        ensures accepted { IfNone (refusal_of dimension.now) (IsOkUnless result WeightFault.Memory) }
    {
        let rows = rows_of(alloc, dimension)?;
        let greatest = greatest_of(&rows);
        Ok(Weights { rows, greatest })
    }

    /// How many elements there are.
    pub fn len(&self) -> usize
        ensures { result ≡ length self.now }
    {
        self.rows.len()
    }

    /// How much a leaf counts in an element: 0 also where it isn't a leaf.
    pub fn coef(&self, element: u32, leaf: u32) -> i64
        requires { element < length self.now }
        ensures entry { result ≡ share (leaves_in self.now element) leaf }
        ensures coefficient { (d : Outline) → IsWeightsOf d self.now → IsElement d leaf → result ≡ coef d element leaf }
        ensures size { unsigned_abs result ≤ greatest_of self.now }
    {
        share(self.leaves(element), leaf)
    }

    /// The leaves that count in an element, each with its coefficient, in rising order. None has the coefficient 0.
    pub fn leaves(&self, element: u32) -> &[(u32, i64)]
        requires { element < length self.now }
        ensures pairs { result.now ≡ leaves_in self.now element }
        ensures leaves { (d : Outline) → IsWeightsOf d self.now → result.now ≡ leaves_of d element }
        ensures rising { IsRising result.now }
        ensures within { All (λ pair. pair.0 < length self.now) result.now }
        ensures size { All (λ pair. unsigned_abs pair.1 ≤ greatest_of self.now) result.now }
    {
        self.rows[element as usize].as_slice()
    }

    /// The greatest size of a coefficient: 0 of a dimension without elements.
    pub fn greatest(&self) -> i64
        ensures greatest { result ≡ pos (greatest_of self.now) }
        ensures within { greatest_of self.now ≤ most_coefficient }
    {
        self.greatest
    }
}

// The coefficient that pairs in rising order have for a leaf, or 0 without one.
fn share(pairs: &[(u32, i64)], leaf: u32) -> i64
    requires { IsRising pairs.now }
    ensures { result ≡ share pairs.now leaf }
{
    match pairs.binary_search_by_key(&leaf, |pair| pair.0) {
        Ok(place) => pairs[place].1,
        Err(_) => 0,
    }
}

// The leaves of each element.
fn rows_of(alloc: Global, dimension: &Dimension) -> Result<Vec<ListOf<(u32, i64)>>, WeightFault>
    ensures weights { IfOk result (λ rows. IsWeightsOf dimension.now rows.items) }
    ensures valid { IfOk result (λ rows. AreRows (length rows.items) rows.items) }
    ensures refused { IfSome (refusal_of dimension.now) (λ fault. (result ≡ Err fault)
        ⊎ (result ≡ Err WeightFault.Memory)) }
    ensures accepted { IfNone (refusal_of dimension.now) (IsOkUnless result WeightFault.Memory) }
{
    let elements = elements_by_level(alloc, dimension)?;
    let alike = alike_of(alloc, dimension)?;
    let mut sums = Sums::new(alloc, dimension.len() as usize)?;
    let mut table = TableBuilder::new(alloc, dimension.len() as usize)?;
    let by_level = elements.as_slice();
    for element in by_level {
        table.add(&mut sums, dimension, &alike, *element)?;
    }
    Ok(table.into_rows())
}
