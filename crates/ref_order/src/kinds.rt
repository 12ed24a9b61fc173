ghost use Rattle.std.specs.Prelude.{◌≡◌, ℕ, ◌+◌, ◌≤◌, ◌^◌, pos, Some, None, unsigned_abs, IfSome};
ghost use Rattle.order_laws.specs.Greatest.{plus, larger, only};
ghost use Rattle.order_laws.specs.Earlier.{is_same, are_same};
ghost use Rattle.ref_order.specs.Kinds.{number_for, number_of, sum_before};
ghost use Rattle.ref_order.specs.Kinds.{AreNumbers, AreByKinds, AreWithin, AreAllWithin};

use crate::number::{larger, plus};

/// Numbers of an element, by the kind of what is named from it.
#[derive(Clone, Copy)]
pub struct Numbers {
    /// Where all that is named is a leaf.
    pub leaf: Option<i64>,
    /// Where something isn't.
    pub total: Option<i64>,
}

/// Numbers of elements, by their kind and by the kind of what is named from them.
#[derive(Clone, Copy)]
pub struct ByKinds {
    /// Of leaves.
    pub leaf: Numbers,
    /// Of consolidated elements.
    pub total: Numbers,
}

/// No number.
pub fn no_numbers() -> Numbers
    ensures numbers { AreNumbers result (λ _. None) }
    ensures size { (most : ℕ) → AreWithin result most }
{
    Numbers {
        leaf: None,
        total: None,
    }
}

/// No number of either kind of element.
pub fn no_kinds() -> ByKinds
    ensures numbers { AreByKinds result (λ _. None) }
    ensures size { (most : ℕ) → AreAllWithin result most }
{
    ByKinds {
        leaf: no_numbers(),
        total: no_numbers(),
    }
}

/// A number of one kind alone.
pub fn of_kind(leaf: bool, number: Option<i64>) -> Numbers
    ensures numbers { AreNumbers result (λ kind. only (is_same kind leaf) number) }
    ensures size { (most : ℕ) → IfSome number (λ n. unsigned_abs n ≤ most) → AreWithin result most }
{
    if leaf {
        Numbers {
            leaf: number,
            total: None,
        }
    } else {
        Numbers {
            leaf: None,
            total: number,
        }
    }
}

/// The larger numbers of each kind.
pub fn larger_numbers(left: Numbers, right: Numbers) -> Numbers
    ensures numbers { AreNumbers result (λ kind. larger (number_for left kind) (number_for right kind)) }
    ensures size { (most : ℕ) → AreWithin left most → AreWithin right most → AreWithin result most }
{
    Numbers {
        leaf: larger(left.leaf, right.leaf),
        total: larger(left.total, right.total),
    }
}

/// The larger numbers, with those of one element more.
pub fn with_element(best: ByKinds, leaf: bool, numbers: Numbers) -> ByKinds
    ensures numbers { AreByKinds result (λ here. larger (only (is_same here.own leaf) (number_for numbers here.its))
        (number_of best here)) }
    ensures size { (most : ℕ) → AreAllWithin best most → AreWithin numbers most → AreAllWithin result most }
{
    if leaf {
        ByKinds {
            leaf: larger_numbers(numbers, best.leaf),
            total: best.total,
        }
    } else {
        ByKinds {
            leaf: best.leaf,
            total: larger_numbers(numbers, best.total),
        }
    }
}

/// The number of a kind.
pub fn number_for(numbers: Numbers, leaf: bool) -> Option<i64>
    ensures value { result ≡ number_for numbers leaf }
    ensures size { (most : ℕ) → AreWithin numbers most → IfSome result (λ n. unsigned_abs n ≤ most) }
{
    if leaf { numbers.leaf } else { numbers.total }
}

/// The sum over no dimension: 0 where the kinds are the wanted ones.
pub fn sum_of_none(own: bool, its: bool) -> ByKinds
    ensures numbers { AreByKinds result (λ before. only (are_same (record { own = own; its = its }) before)
        (Some (pos 0))) }
    ensures size { AreAllWithin result 0 }
{
    let zero = of_kind(its, Some(0));
    if own {
        ByKinds {
            leaf: zero,
            total: no_numbers(),
        }
    } else {
        ByKinds {
            leaf: no_numbers(),
            total: zero,
        }
    }
}

fn twice(number: Option<i64>) -> Numbers
    ensures numbers { AreNumbers result (λ _. number) }
    ensures size { (most : ℕ) → IfSome number (λ n. unsigned_abs n ≤ most) → AreWithin result most }
{
    Numbers {
        leaf: number,
        total: number,
    }
}

// The greatest sum of a number and of the one in its place.
fn greatest_joined(here: ByKinds, rest: ByKinds) -> Option<i64>
    requires here { AreAllWithin here (2 ^ 40) }
    requires rest { AreAllWithin rest (2 ^ 50) }
    ensures value { result ≡ larger
        (larger (plus here.leaf.leaf rest.leaf.leaf) (plus here.leaf.total rest.leaf.total))
        (larger (plus here.total.leaf rest.total.leaf) (plus here.total.total rest.total.total)) }
    ensures size { (most : ℕ) → AreAllWithin rest most → IfSome result (λ n. unsigned_abs n ≤ 2 ^ 40 + most) }
{
    let leaf = larger(
        plus(here.leaf.leaf, rest.leaf.leaf),
        plus(here.leaf.total, rest.leaf.total),
    );
    let total = larger(
        plus(here.total.leaf, rest.total.leaf),
        plus(here.total.total, rest.total.total),
    );
    larger(leaf, total)
}

/// The greatest sums with one dimension more, by the kinds before it.
pub fn sums_before(here: ByKinds, rest: ByKinds) -> ByKinds
    requires here { AreAllWithin here (2 ^ 40) }
    requires rest { AreAllWithin rest (2 ^ 50) }
    ensures numbers { AreByKinds result (sum_before (number_of here) (number_of rest)) }
    ensures size { (most : ℕ) → AreAllWithin rest most → AreAllWithin result (2 ^ 40 + most) }
{
    let total = twice(rest.total.total);
    let reading_total = ByKinds {
        leaf: twice(rest.leaf.total),
        total,
    };
    let own_total = ByKinds {
        leaf: rest.total,
        total: rest.total,
    };
    let both_total = ByKinds { leaf: total, total };
    ByKinds {
        leaf: Numbers {
            leaf: greatest_joined(here, rest),
            total: greatest_joined(here, reading_total),
        },
        total: Numbers {
            leaf: greatest_joined(here, own_total),
            total: greatest_joined(here, both_total),
        },
    }
}
