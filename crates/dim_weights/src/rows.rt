ghost use Rattle.std.specs.Prelude.{◌≡◌, ℕ, ◌+◌, ◌*◌, ◌^◌, ◌<◌, ◌≤◌, ◌+ℤ◌, ◌*ℤ◌, All, length, unsigned_abs, IfOk, OnOk};
ghost use Rattle.std.specs.Prelude.{IfSome, IfNone};
ghost use Rattle.dim_weights.specs.Coefficients.{weighted_sum};
ghost use Rattle.dim_weights.specs.Table.{leaves_in, share, greatest_in};
ghost use Rattle.dim_weights.specs.Inside.Alike.{HasSameRow, HaveSameRows};
ghost use Rattle.dim_weights.specs.Inside.Sums.{sum_at, AreZero, AreRows, IsRow, AreWithin};
ghost use Rattle.dim_weights.specs.Inside.Rows.{pairs_over, counted_over, AreMerged, AreParts, most_merged_weight};
ghost use Rattle.dim_weights.specs.Coefficients.{most_coefficient};

use crate::alike::{stand_in, stood_in};
use crate::merged::merged;
use crate::sums::Sums;
use lists::ListOf;
use std::alloc::{AllocError, Global};

/// The leaves that count in an element with these components, each with its coefficient, in rising order, or None where
/// a coefficient is too large. The rows of the components are made, and of each element that stands in for one of them
/// or for the element.
pub fn pairs_over(
    alloc: Global,
    sums: &mut Sums,
    rows: &[ListOf<(u32, i64)>],
    alike: &[u32],
    element: u32,
    parts: &[(u32, i64)],
) -> Result<Option<Vec<(u32, i64)>>, AllocError>
    requires zero { AreZero sums.old }
    requires rows { AreRows (length sums.old) rows.now }
    requires whole { length rows.now ≡ length sums.old }
    requires within { element < length sums.old }
    requires parts { AreParts (length sums.old) parts.now }
    requires same { HaveSameRows rows.now alike.now parts.now }
    requires made { HasSameRow (length sums.old) rows.now alike.now element parts.now }
    ensures pairs { IfOk result (λ found. IfSome found
        (λ pairs. pairs.items ≡ pairs_over (length sums.old) rows.now element parts.now)) }
    ensures small { IfOk result (λ found. IfSome found (λ pairs. greatest_in pairs.items ≤ most_coefficient)) }
    ensures large { IfOk result (λ found. IfNone found (most_coefficient < greatest_in (pairs_over
        (length sums.old) rows.now element parts.now))) }
    ensures zero { IfOk result (λ found. IfSome found (λ _. AreZero sums.new)) }
    ensures length { length sums.new ≡ length sums.old }
{
    let other = stand_in(alike, element);
    if other != element {
        let row = row_of(alloc, rows, other)?;
        return Ok(Some(row));
    }
    add_element(alloc, sums, rows, alike, element, parts)?;
    sums.take_pairs(alloc)
}

// A row again.
fn row_of(
    alloc: Global,
    rows: &[ListOf<(u32, i64)>],
    element: u32,
) -> Result<Vec<(u32, i64)>, AllocError>
    requires { element < length rows.now }
    ensures { IfOk result (λ row. row.items ≡ leaves_in rows.now element) }
{
    let row = rows[element as usize].as_slice().to_vec(alloc)?;
    Ok(row)
}

// Adds what each leaf counts in the element: a leaf counts in itself alone.
fn add_element(
    alloc: Global,
    sums: &mut Sums,
    rows: &[ListOf<(u32, i64)>],
    alike: &[u32],
    element: u32,
    parts: &[(u32, i64)],
) -> Result<(), AllocError>
    requires zero { AreZero sums.old }
    requires rows { AreRows (length sums.old) rows.now }
    requires whole { length rows.now ≡ length sums.old }
    requires within { element < length sums.old }
    requires parts { AreParts (length sums.old) parts.now }
    requires same { HaveSameRows rows.now alike.now parts.now }
    ensures counted { OnOk result ((leaf : ℕ) → sum_at sums.new leaf ≡ counted_over rows.now element parts.now leaf) }
    ensures length { length sums.new ≡ length sums.old }
{
    if parts.is_empty() {
        sums.add(element, 1)
    } else {
        let known = stood_in(alloc, alike, parts)?;
        let parts = merged(alloc, &known)?;
        add_parts(sums, rows, &parts)
    }
}

// Adds the rows of these components, each times its weight.
fn add_parts(
    sums: &mut Sums,
    rows: &[ListOf<(u32, i64)>],
    parts: &[(u32, i64)],
) -> Result<(), AllocError>
    requires zero { AreZero sums.old }
    requires rows { AreRows (length sums.old) rows.now }
    requires whole { length rows.now ≡ length sums.old }
    requires parts { AreMerged (length sums.old) parts.now }
    ensures added { OnOk result ((leaf : ℕ)
        → sum_at sums.new leaf ≡ weighted_sum (λ part. share (leaves_in rows.now part) leaf) parts.now) }
    ensures length { length sums.new ≡ length sums.old }
{
    for (part, weight) in parts {
        add_row(sums, rows[*part as usize].as_slice(), *weight)?;
    }
    Ok(())
}

// Adds a row times a weight. Where weights cancel, the row isn't read.
fn add_row(sums: &mut Sums, row: &[(u32, i64)], weight: i64) -> Result<(), AllocError>
    requires row { IsRow (length sums.old) row.now }
    requires weight { unsigned_abs weight ≤ most_merged_weight }
    requires room { AreWithin (10 ^ 34) sums.old }
    ensures added { OnOk result ((leaf : ℕ)
        → sum_at sums.new leaf ≡ sum_at sums.old leaf +ℤ (weight *ℤ share row.now leaf)) }
    ensures length { length sums.new ≡ length sums.old }
{
    if weight == 0 {
        return Ok(());
    }
    for (leaf, coefficient) in row {
        sums.add(*leaf, product(weight, *coefficient))?;
    }
    Ok(())
}

fn product(weight: i64, coefficient: i64) -> i128
    ensures { result ≡ weight *ℤ coefficient }
{
    i128::from(weight) * i128::from(coefficient)
}
