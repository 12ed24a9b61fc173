ghost use Rattle.std.specs.Prelude.{◌≡◌, ◌*◌, ◌^◌, ◌<◌, ◌≤◌, unsigned_abs};
ghost use Rattle.cube_fixed.specs.Total.{most_term_coefficient, no_terms, term_of, over_enters, with_term, value_of};
ghost use Rattle.cube_fixed.specs.Range.{most_millionths};

use crate::rounding::{exact_product, fitted};
use crate::value::Value;
use std::marker::Model;

/// A weighted sum that is exact to its end: the range is tested once, by [`Sum::value`].
#[derive(Drop)]
pub struct Sum {
    exact: i128,
    over: bool,
    terms: u64,
}

impl Model for Sum {
    ghost use Rattle.std.specs.Prelude.{◌*◌, ◌^◌, ◌≤◌, unsigned_abs};
    ghost use Rattle.cube_fixed.specs.Range.{most_millionths};
    ghost use Rattle.cube_fixed.specs.Total.{Total, most_term_coefficient};

    ghost Value = { Total };

    ghost view = { λ s. record { exact = s.exact; over = s.over; terms = s.terms } };

    ghost invariant = { λ s. (unsigned_abs s.exact ≤ s.terms * (most_term_coefficient * most_millionths))
        × (s.terms ≤ 2 ^ 32) };
}

impl Sum {
    /// The sum of no terms, which is 0.
    pub fn new() -> Sum
        ensures { result ≡ no_terms }
    {
        Sum {
            exact: 0,
            over: false,
            terms: 0,
        }
    }

    /// Adds `coef * v`. With the coefficient 0 it adds nothing, also for `Over`; with another one an `Over` makes
    /// the sum `Over`.
    pub fn add(&mut self, coef: i64, v: Value)
        requires size { unsigned_abs coef ≤ most_term_coefficient }
        requires room { self.old.terms < 2 ^ 32 }
        ensures { self.new ≡ with_term self.old coef v }
    {
        self.over |= lets_over_in(coef, &v);
        self.exact += exact_term(coef, v);
        self.terms += 1;
    }

    /// The sum, or `Over` where it is out of range or a term was `Over`.
    pub fn value(&self) -> Value
        ensures { result ≡ value_of self.now }
    {
        if self.over {
            Value::Over
        } else {
            fitted(self.exact)
        }
    }
}

/// What a term adds to the exact sum.
fn exact_term(coef: i64, v: Value) -> i128
    requires { unsigned_abs coef ≤ most_term_coefficient }
    ensures value { result ≡ term_of coef v }
    ensures size { unsigned_abs result ≤ most_term_coefficient * most_millionths }
{
    match v {
        Value::Num(number) => exact_product(coef, number.millionths()),
        Value::Over => 0,
    }
}

/// Whether `Over` enters the sum by this term.
fn lets_over_in(coef: i64, v: &Value) -> bool
    ensures { result ≡ over_enters coef v.now }
{
    *v == Value::Over && coef != 0
}
