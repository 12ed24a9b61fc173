ghost use Rattle.std.specs.Prelude.{◌≡◌, ◌≢◌, ◌*◌, ◌<◌, ◌≤◌, ◌⊎◌, ℕ, pos, ◌+ℤ◌, ◌*ℤ◌, ◌<ℤ◌, neg_ℤ, true, false};
ghost use Rattle.std.specs.Prelude.{length, All};
ghost use Rattle.std.specs.Prelude.{IfOk, IfErr, SomeIff, unsigned_abs, pred, if◌then◌else◌};
ghost use Rattle.std.specs.Int.{int_div_euclid};
ghost use Rattle.cube_fixed.specs.Range.{IsInRange, most_millionths};
ghost use Rattle.cell_spread.specs.Shares.{sum_of, floor_ratio, goes_up, rounded_up, rest_of, shared_out};
ghost use Rattle.cell_spread.specs.Spread.{are_in_range, most_spread};
ghost use Rattle.cell_spread.specs.Inside.Remainders.{left_of, most_product};
ghost use Rattle.cell_spread.specs.declared.fault.SpreadFault.TheVariants.{Memory, NothingThere, OverWrite};

use crate::fault::SpreadFault;
use cube_fixed::Money;
use std::alloc::Global;

/// The amount, shared out among these cells in proportion to their parts.
pub fn share_out(
    alloc: Global,
    amount: Money,
    parts: &[(u64, i64)],
) -> Result<Vec<(u64, Money)>, SpreadFault>
    requires few { length parts.now ≤ most_spread }
    requires small { All (λ one. IsInRange one.1) parts.now }
    ensures shares { IfOk result (λ shares. shares.items ≡ shared_out amount parts.now) }
    ensures there { IfOk result (λ _. sum_of parts.now ≢ pos 0) }
    ensures within { IfOk result (λ _. are_in_range (shared_out amount parts.now) ≡ true) }
    ensures fault { IfErr result (λ fault. (fault ≡ Memory)
        ⊎ ((fault ≡ NothingThere) × (sum_of parts.now ≡ pos 0))
        ⊎ ((fault ≡ OverWrite) × (sum_of parts.now ≢ pos 0)
        × (are_in_range (shared_out amount parts.now) ≡ false))) }
{
    let total = sum_of(parts);
    if total == 0 {
        return Err(SpreadFault::NothingThere);
    }
    let amount = amount.millionths();
    let up = rest_of(amount, total, parts);
    rounded_up(alloc, amount, total, up, parts)
}

// The shares rounded down, but the first so many that aren't whole rounded up.
fn rounded_up(
    alloc: Global,
    amount: i64,
    total: i128,
    up: u64,
    parts: &[(u64, i64)],
) -> Result<Vec<(u64, Money)>, SpreadFault>
    requires amount { IsInRange amount }
    requires total { total ≢ pos 0 }
    requires size { unsigned_abs total ≤ most_product }
    requires small { All (λ one. IsInRange one.1) parts.now }
    ensures shares { IfOk result (λ shares. shares.items ≡ rounded_up amount total up parts.now) }
    ensures within { IfOk result (λ _. are_in_range (rounded_up amount total up parts.now) ≡ true) }
    ensures fault { IfErr result (λ fault. (fault ≡ Memory)
        ⊎ ((fault ≡ OverWrite) × (are_in_range (rounded_up amount total up parts.now) ≡ false))) }
{
    let mut shares = Vec::with_capacity(alloc, parts.len())?;
    let mut up = up;
    for (cell, part) in parts {
        let (share, left) = next_share(amount, total, up, *part);
        let Some(share) = money_of(share) else {
            return Err(SpreadFault::OverWrite);
        };
        shares.push((*cell, share))?;
        up = left;
    }
    Ok(shares)
}

// What the next cell gets, where so many shares are still rounded up, and how many are after it.
fn next_share(amount: i64, total: i128, up: u64, part: i64) -> (i128, u64)
    requires amount { IsInRange amount }
    requires total { total ≢ pos 0 }
    requires size { unsigned_abs total ≤ most_product }
    requires part { IsInRange part }
    ensures share { result.0 ≡ (if goes_up amount total up part then floor_ratio (amount *ℤ part) total +ℤ pos 1
        else floor_ratio (amount *ℤ part) total) }
    ensures up { result.1 ≡ (if goes_up amount total up part then pred up else up) }
{
    let (floor, left) = share_of(amount, total, part);
    if up > 0 && left > 0 {
        (floor + 1, up - 1)
    } else {
        (floor, up)
    }
}

// How much of the amount is left when all shares are rounded down.
fn rest_of(amount: i64, total: i128, parts: &[(u64, i64)]) -> u64
    requires amount { IsInRange amount }
    requires sum { total ≡ sum_of parts.now }
    requires total { total ≢ pos 0 }
    requires size { unsigned_abs total ≤ most_spread * most_millionths }
    requires few { length parts.now ≤ most_spread }
    requires small { All (λ one. IsInRange one.1) parts.now }
    ensures { result ≡ rest_of amount parts.now }
{
    let mut left = 0;
    for (_, part) in parts {
        left += share_of(amount, total, *part).1;
    }
    (left / total.unsigned_abs()) as u64
}

// A share, amount * part / total: rounded down, and what is left of it, in parts of the total.
fn share_of(amount: i64, total: i128, part: i64) -> (i128, u128)
    requires amount { IsInRange amount }
    requires total { total ≢ pos 0 }
    requires size { unsigned_abs total ≤ most_product }
    requires part { IsInRange part }
    ensures floor { result.0 ≡ floor_ratio (amount *ℤ part) total }
    ensures left { result.1 ≡ left_of (amount *ℤ part) total }
    ensures size { unsigned_abs result.0 ≤ most_product }
    ensures less { result.1 < unsigned_abs total }
{
    let product = product_of(amount, part);
    if total < 0 {
        floor_and_left(opposite(product), opposite(total))
    } else {
        floor_and_left(product, total)
    }
}

fn product_of(amount: i64, part: i64) -> i128
    requires amount { IsInRange amount }
    requires part { IsInRange part }
    ensures value { result ≡ amount *ℤ part }
    ensures size { unsigned_abs result ≤ most_product }
{
    i128::from(amount) * i128::from(part)
}

fn opposite(number: i128) -> i128
    requires { unsigned_abs number ≤ most_product }
    ensures { result ≡ neg_ℤ number }
{
    -number
}

// The same of a number and a divisor above 0.
fn floor_and_left(number: i128, divisor: i128) -> (i128, u128)
    requires divisor { pos 0 <ℤ divisor }
    ensures floor { result.0 ≡ int_div_euclid number divisor }
    ensures left { result.0 *ℤ divisor +ℤ pos result.1 ≡ number }
    ensures size { unsigned_abs result.0 ≤ unsigned_abs number }
    ensures less { pos result.1 <ℤ divisor }
{
    (
        number.div_euclid(divisor),
        number.rem_euclid(divisor).unsigned_abs(),
    )
}

// The number of so many millionths, if that is in range.
fn money_of(millionths: i128) -> Option<Money>
    ensures { SomeIff result (IsInRange millionths) millionths }
{
    match i64::try_from(millionths) {
        Ok(millionths) => Money::of(millionths),
        Err(_) => None,
    }
}

// The parts, together.
fn sum_of(parts: &[(u64, i64)]) -> i128
    requires few { length parts.now ≤ most_spread }
    requires small { All (λ one. IsInRange one.1) parts.now }
    ensures sum { result ≡ sum_of parts.now }
    ensures size { unsigned_abs result ≤ most_spread * most_millionths }
{
    let mut sum = 0;
    for (_, part) in parts {
        sum += i128::from(*part);
    }
    sum
}
