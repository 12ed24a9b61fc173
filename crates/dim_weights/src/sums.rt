ghost use Rattle.std.specs.Prelude.{◌≡◌, ◌<◌, ◌≤◌, ◌^◌, ◌+ℤ◌, pos, true, false, [], ◌∷◌, ◌++◌, All, length};
ghost use Rattle.std.specs.Prelude.{slice_index_or, slice_set, unsigned_abs, if◌then◌else◌, IfOk, OnOk, OnErr, IfSome};
ghost use Rattle.std.specs.Prelude.{IfNone, SomeIndex};
ghost use Rattle.std.specs.List.Sorted.{IsStrictlyIncreasing};
ghost use Rattle.dim_weights.specs.Table.{nonzero_among, greatest_in};
ghost use Rattle.dim_weights.specs.Inside.Sums.{sum_at, nonzero_pair, nonzero_sums, AreZero, ArePut};
ghost use Rattle.dim_weights.specs.Coefficients.{most_coefficient};

use crate::weights::MAX_COEFFICIENT;
use std::alloc::{AllocError, Global};
use std::marker::Model;

/// A sum for each leaf. To read them and to set them back to 0 costs only as much as there are leaves that something
/// was added to.
#[derive(Drop)]
pub struct Sums {
    sums: Vec<i128>,
    marked: Vec<bool>,
    touched: Vec<u32>,
}

impl Model for Sums {
    ghost use Rattle.std.specs.Prelude.{ℤ, List};
    ghost use Rattle.dim_weights.specs.Inside.Sums.{IsTouched};

    ghost Value = { List ℤ };

    ghost view = { λ s. s.sums.items };

    ghost invariant = { λ s. IsTouched s.sums.items s.marked.items s.touched.items };
}

impl Sums {
    /// Sums of 0, for the leaves below this one.
    pub fn new(alloc: Global, leaves: usize) -> Result<Sums, AllocError>
        ensures length { IfOk result (λ sums. length sums ≡ leaves) }
        ensures zero { IfOk result AreZero }
    {
        Ok(Sums {
            sums: vec![in alloc; 0; leaves]?,
            marked: vec![in alloc; false; leaves]?,
            touched: Vec::new(alloc),
        })
    }

    /// Adds an amount to the sum of a leaf.
    pub fn add(&mut self, leaf: u32, amount: i128) -> Result<(), AllocError>
        requires within { leaf < length self.old }
        requires fits { unsigned_abs (sum_at self.old leaf +ℤ amount) < 2 ^ 127 }
        ensures added { OnOk result (self.new ≡ slice_set self.old leaf (sum_at self.old leaf +ℤ amount)) }
        ensures length { length self.new ≡ length self.old }
    {
        mark(leaf, &mut self.marked, &mut self.touched)?;
        self.sums[leaf as usize] += amount;
        Ok(())
    }

    /// The leaves with a sum other than 0, each with it, in rising order, or None where a sum is above
    /// [`MAX_COEFFICIENT`] in size. With an answer other than None all sums are 0 again.
    pub fn take_pairs(&mut self, alloc: Global) -> Result<Option<Vec<(u32, i64)>>, AllocError>
        ensures pairs { IfOk result (λ found. IfSome found (λ pairs. pairs.items ≡ nonzero_sums self.old)) }
        ensures small { IfOk result (λ found. IfSome found (λ pairs. greatest_in pairs.items ≤ most_coefficient)) }
        ensures large { IfOk result (λ found. IfNone found (most_coefficient < greatest_in (nonzero_sums self.old))) }
        ensures zero { IfOk result (λ found. IfSome found (λ _. AreZero self.new)) }
        ensures length { length self.new ≡ length self.old }
    {
        let found = self.pairs(alloc)?;
        if found.is_some() {
            self.clear();
        }
        Ok(found)
    }

    // The pairs, and no sum changes.
    fn pairs(&mut self, alloc: Global) -> Result<Option<Vec<(u32, i64)>>, AllocError>
        ensures pairs { IfOk result (λ found. IfSome found (λ pairs. pairs.items ≡ nonzero_sums self.old)) }
        ensures small { IfOk result (λ found. IfSome found (λ pairs. greatest_in pairs.items ≤ most_coefficient)) }
        ensures large { IfOk result (λ found. IfNone found (most_coefficient < greatest_in (nonzero_sums self.old))) }
        ensures unchanged { self.new ≡ self.old }
    {
        self.touched.sort()?;
        pairs_of(alloc, &self.touched, &self.sums)
    }

    fn clear(&mut self)
        ensures zero { AreZero self.new }
        ensures length { length self.new ≡ length self.old }
    {
        clear(&self.touched, &mut self.sums, &mut self.marked);
        self.touched.clear();
    }
}

// Marks a leaf, and lists it where it wasn't marked.
fn mark(leaf: u32, marked: &mut Vec<bool>, touched: &mut Vec<u32>) -> Result<(), AllocError>
    requires { leaf < length marked.old.items }
    ensures marked { OnOk result (marked.new.items ≡ slice_set marked.old.items leaf true) }
    ensures touched { OnOk result (touched.new.items ≡ (if slice_index_or marked.old.items leaf false
        then touched.old.items else touched.old.items ++ leaf ∷ [])) }
    ensures unchanged { OnErr result ((marked.new.items ≡ marked.old.items) × (touched.new.items ≡ touched.old.items)) }
{
    let place = leaf as usize;
    if !marked[place] {
        touched.push(leaf)?;
    }
    marked[place] = true;
    Ok(())
}

// Those of these leaves with a sum other than 0, or None where one is too large.
fn pairs_of(
    alloc: Global,
    leaves: &[u32],
    sums: &[i128],
) -> Result<Option<Vec<(u32, i64)>>, AllocError>
    requires { All (λ leaf. leaf < length sums.now) leaves.now }
    ensures pairs { IfOk result (λ found. IfSome found
        (λ pairs. pairs.items ≡ nonzero_among (sum_at sums.now) leaves.now)) }
    ensures small { IfOk result (λ found. IfSome found (λ pairs. greatest_in pairs.items ≤ most_coefficient)) }
    ensures large { IfOk result (λ found. IfNone found (SomeIndex sums.now
        (λ leaf. most_coefficient < unsigned_abs (sum_at sums.now leaf)))) }
{
    let mut pairs = Vec::new(alloc);
    for leaf in leaves {
        let sum = sums[*leaf as usize];
        if sum.unsigned_abs() > u128::from(MAX_COEFFICIENT) {
            return Ok(None);
        }
        push_nonzero(&mut pairs, *leaf, sum)?;
    }
    Ok(Some(pairs))
}

fn push_nonzero(pairs: &mut Vec<(u32, i64)>, leaf: u32, sum: i128) -> Result<(), AllocError>
    requires { unsigned_abs sum ≤ most_coefficient }
    ensures { OnOk result (pairs.new.items ≡ pairs.old.items ++ nonzero_pair leaf sum) }
{
    if sum != 0 {
        pairs.push((leaf, sum as i64))?;
    }
    Ok(())
}

// Sets the sums of these leaves to 0 and takes their marks.
fn clear(leaves: &[u32], sums: &mut Vec<i128>, marked: &mut Vec<bool>)
    requires within { All (λ leaf. leaf < length sums.old.items) leaves.now }
    requires whole { length marked.old.items ≡ length sums.old.items }
    ensures sums { ArePut leaves.now (pos 0) sums.old.items sums.new.items }
    ensures marked { ArePut leaves.now false marked.old.items marked.new.items }
{
    for leaf in leaves {
        sums[*leaf as usize] = 0;
        marked[*leaf as usize] = false;
    }
}
