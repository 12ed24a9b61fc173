ghost use Rattle.std.specs.Prelude.{◌≡◌, ℕ, ◌+◌, ◌<◌, ◌≤◌, ◌⊎◌, pos, [], Err, length, IfOk, OnOk, IfSome, IfNone};
ghost use Rattle.std.specs.Prelude.{IsOkUnless};
ghost use Rattle.dim_core.specs.Outline.{IsDimension};
ghost use Rattle.dim_core.specs.Outline.{IsElement, components_of};
ghost use Rattle.dim_weights.specs.Table.{leaves_in, greatest_of, greatest_in};
ghost use Rattle.dim_weights.specs.Refusal.{fault_of};
ghost use Rattle.dim_weights.specs.Inside.Alike.{HasSameRow, HaveSameRows};
ghost use Rattle.dim_weights.specs.Inside.Sums.{AreRows, AreZero};
ghost use Rattle.dim_weights.specs.Inside.Rows.{pairs_over, row_of, with_row};
ghost use Rattle.dim_weights.specs.Coefficients.{most_coefficient};

use crate::fault::WeightFault;
use crate::rows::pairs_over;
use crate::sums::Sums;
use crate::weights::MAX_PAIRS;
use dim_core::Dimension;
use lists::ListOf;
use std::alloc::{AllocError, Global};
use std::marker::Model;

/// The table of a dimension while it is made, element by element.
#[derive(Drop)]
pub struct TableBuilder {
    alloc: Global,
    rows: Vec<ListOf<(u32, i64)>>,
    count: usize,
}

impl Model for TableBuilder {
    ghost use Rattle.dim_weights.specs.Inside.Rows.{Rows, IsBuilding};

    ghost Value = { Rows };

    ghost view = { λ b. record { rows = b.rows.items; count = b.count } };

    ghost invariant = { λ b. IsBuilding b.rows.items b.count };
}

impl TableBuilder {
    /// A table of so many elements, none of which has pairs yet.
    pub fn new(alloc: Global, elements: usize) -> Result<TableBuilder, AllocError>
        ensures length { IfOk result (λ made. length made.rows ≡ elements) }
        ensures count { IfOk result (λ made. made.count ≡ 0) }
    {
        let mut rows = Vec::with_capacity(alloc, elements)?;
        'rows: for _ in 0..elements {
            rows.push(ListOf::new(Vec::new(alloc)))?;
        }
        Ok(TableBuilder {
            alloc,
            rows,
            count: 0,
        })
    }

    /// Makes the row of an element, whose components have theirs, as has each element that stands in for one of them or
    /// for the element.
    pub fn add(
        &mut self,
        sums: &mut Sums,
        dimension: &Dimension,
        alike: &[u32],
        element: u32,
    ) -> Result<(), WeightFault>
        requires valid { IsDimension dimension.now }
        requires whole { length self.old.rows ≡ length dimension.now.elements }
        requires sums { length sums.old ≡ length dimension.now.elements }
        requires zero { AreZero sums.old }
        requires within { IsElement dimension.now element }
        requires same { HaveSameRows self.old.rows alike.now (components_of dimension.now element) }
        requires made { HasSameRow (length dimension.now.elements) self.old.rows alike.now element
            (components_of dimension.now element) }
        ensures refused { IfSome (fault_of element (row_of dimension.now self.old element)
            (self.old.count + length (row_of dimension.now self.old element)))
            (λ fault. (result ≡ Err fault) ⊎ (result ≡ Err WeightFault.Memory)) }
        ensures accepted { IfNone (fault_of element (row_of dimension.now self.old element)
            (self.old.count + length (row_of dimension.now self.old element))) (IsOkUnless result WeightFault.Memory) }
        ensures added { OnOk result (self.new ≡ with_row self.old element (row_of dimension.now self.old element)) }
        ensures zero { OnOk result (AreZero sums.new) }
        ensures sums { length sums.new ≡ length sums.old }
    {
        let parts = dimension.components(element);
        let found = pairs_over(self.alloc, sums, &self.rows, alike, element, parts)?;
        let Some(pairs) = found else {
            return Err(WeightFault::CoefficientTooLarge(element));
        };
        let count = self.count + pairs.len();
        if count > MAX_PAIRS {
            return Err(WeightFault::TooManyPairs(count as u64));
        }
        self.rows[element as usize] = ListOf::new(pairs);
        self.count = count;
        Ok(())
    }

    /// The rows.
    pub fn into_rows(self) -> Vec<ListOf<(u32, i64)>>
        ensures rows { result.items ≡ self.rows }
        ensures valid { AreRows (length self.rows) self.rows }
    {
        self.rows
    }
}

/// The greatest size of a coefficient in these rows.
pub fn greatest_of(rows: &[ListOf<(u32, i64)>]) -> i64
    requires { AreRows (length rows.now) rows.now }
    ensures value { result ≡ pos (greatest_of rows.now) }
    ensures within { greatest_of rows.now ≤ most_coefficient }
{
    let mut greatest = 0;
    for row in rows {
        greatest = greatest.max(greatest_in(row.as_slice()));
    }
    greatest as i64
}

fn greatest_in(pairs: &[(u32, i64)]) -> u64
    requires { greatest_in pairs.now ≤ most_coefficient }
    ensures { result ≡ greatest_in pairs.now }
{
    let mut greatest = 0;
    for pair in pairs {
        greatest = greatest.max(pair.1.unsigned_abs());
    }
    greatest
}
