ghost use Rattle.std.specs.Prelude.{◌≡◌, ℕ, ℤ, ◌+◌, ◌≤◌, ◌<◌, ◌+ℤ◌, ◌*ℤ◌, All, IfOk, OnOk, length, unsigned_abs};
ghost use Rattle.std.specs.List.Sorted.{IsPermutation};
ghost use Rattle.dim_core.specs.Outline.{IsWeight};
ghost use Rattle.dim_weights.specs.Coefficients.{weighted_sum};
ghost use Rattle.dim_weights.specs.Inside.Rows.{most_merged_weight};
ghost use Rattle.dim_core.specs.Outline.{most_components, most_weight};

use std::alloc::{AllocError, Global};

/// These components, one after another by index, each named once and with its weights together. So a component that is
/// named often costs its row once.
pub fn merged(alloc: Global, parts: &[(u32, i64)]) -> Result<Vec<(u32, i64)>, AllocError>
    requires weights { All (λ part. IsWeight part.1) parts.now }
    requires few { length parts.now ≤ most_components }
    ensures sum { IfOk result (λ made. (f : ℕ → ℤ) → weighted_sum f made.items ≡ weighted_sum f parts.now) }
    ensures within { IfOk result (λ made. (n : ℕ) → All (λ part. part.0 < n) parts.now
        → All (λ part. part.0 < n) made.items) }
    ensures small { IfOk result (λ made. All (λ part. unsigned_abs part.1 ≤ most_merged_weight) made.items) }
    ensures few { IfOk result (λ made. length made.items ≤ most_components) }
{
    let sorted = sorted_by_element(alloc, parts)?;
    let mut made = Vec::new(alloc);
    'parts: for (part, weight) in &sorted {
        add_part(&mut made, *part, *weight)?;
    }
    Ok(made)
}

fn sorted_by_element(alloc: Global, parts: &[(u32, i64)]) -> Result<Vec<(u32, i64)>, AllocError>
    ensures { IfOk result (λ sorted. IsPermutation parts.now sorted.items) }
{
    let mut sorted = parts.to_vec(alloc)?;
    sorted.sort_by_key(|part| part.0)?;
    Ok(sorted)
}

// Adds a weight of a component: to its last weight, where it is named there, or else behind.
fn add_part(made: &mut Vec<(u32, i64)>, part: u32, weight: i64) -> Result<(), AllocError>
    requires weight { IsWeight weight }
    requires room { All (λ p. unsigned_abs p.1 ≤ most_merged_weight) made.old.items }
    ensures sum { OnOk result ((f : ℕ → ℤ)
        → weighted_sum f made.new.items ≡ weighted_sum f made.old.items +ℤ (weight *ℤ f part)) }
    ensures within { OnOk result ((n : ℕ) → All (λ p. p.0 < n) made.old.items → part < n
        → All (λ p. p.0 < n) made.new.items) }
    ensures small { OnOk result ((m : ℕ) → All (λ p. unsigned_abs p.1 ≤ m) made.old.items
        → All (λ p. unsigned_abs p.1 ≤ m + most_weight) made.new.items) }
    ensures few { OnOk result (length made.new.items ≤ length made.old.items + 1) }
{
    let count = made.len();
    if count > 0 && made[count - 1].0 == part {
        made[count - 1].1 = together(made[count - 1].1, weight);
    } else {
        made.push((part, weight))?;
    }
    Ok(())
}

fn together(first: i64, second: i64) -> i64
    requires first { unsigned_abs first ≤ most_merged_weight }
    requires second { IsWeight second }
    ensures { result ≡ first +ℤ second }
{
    first + second
}
