ghost use Rattle.std.specs.Prelude.{◌≡◌, ℕ, ◌+◌, ◌≤◌, ◌<◌, ◌^◌, unsigned_abs, IfSome};
ghost use Rattle.order_laws.specs.Greatest.{plus, larger};
ghost use Rattle.order_laws.specs.Earlier.{is_below, is_within};

/// The sum of two numbers, where both are there.
pub fn plus(left: Option<i64>, right: Option<i64>) -> Option<i64>
    requires left { IfSome left (λ n. unsigned_abs n ≤ 2 ^ 60) }
    requires right { IfSome right (λ n. unsigned_abs n ≤ 2 ^ 60) }
    ensures value { result ≡ plus left right }
    ensures size { (a b : ℕ) → IfSome left (λ n. unsigned_abs n ≤ a) → IfSome right (λ n. unsigned_abs n ≤ b)
        → IfSome result (λ n. unsigned_abs n ≤ a + b) }
{
    match (left, right) {
        (Some(left), Some(right)) => Some(left + right),
        _ => None,
    }
}

/// The larger of two numbers, or the one that is there.
pub fn larger(left: Option<i64>, right: Option<i64>) -> Option<i64>
    ensures value { result ≡ larger left right }
    ensures size { (most : ℕ) → IfSome left (λ n. unsigned_abs n ≤ most) → IfSome right (λ n. unsigned_abs n ≤ most)
        → IfSome result (λ n. unsigned_abs n ≤ most) }
{
    match (left, right) {
        (Some(left), Some(right)) => Some(left.max(right)),
        (Some(left), None) => Some(left),
        (None, right) => right,
    }
}

/// Whether every number of which this is the greatest is below 0.
pub fn is_below(most: Option<i64>) -> bool
    ensures { result ≡ is_below most }
{
    match most {
        Some(most) => most < 0,
        None => true,
    }
}

/// Whether every number of which this is the greatest is at most 0.
pub fn is_within(most: Option<i64>) -> bool
    ensures { result ≡ is_within most }
{
    match most {
        Some(most) => most <= 0,
        None => true,
    }
}
