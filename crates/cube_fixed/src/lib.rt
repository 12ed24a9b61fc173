//! The numbers of the cube server: fixed point, in millionths, with one mark for what is out of range.
//!
//! - [`Money`] is a number: a whole count of millionths, at most 9,000,000,000,000 units from 0.
//! - [`Value`] is what a cell or a formula holds: a number, or the mark `Over`.
//! - The operations `add`, `sub`, `mul`, `div`, `div_safe`, `remainder`, `max`, `min`, `round`, `round_to`, `floor`,
//!   `trunc`, `abs` and `sign` are total, exact before one rounding, and take no memory. [`compare`] puts values in
//!   order.
//! - [`read`] and [`print`] are a number's text; [`read_with`] reads it with another decimal sign, and [`print_fixed`]
//!   writes it with so many decimals.
//! - [`Sum`] is a weighted sum that is exact to its end, and [`Steps`] a count that takes no bytes.
//! - [`laws_of_zero`] and [`law_of_opposites`] are what sparse evaluation stands on.
//!
//! Contracts see a `Money` as its count of millionths, a whole number, and cite `specs/`.
#![tactic(auto)]

pub use arithmetic::{abs, add, compare, floor, max, min, mul, round, sign, sub};
pub use division::{div, div_safe, remainder};
pub use fixed_printing::print_fixed;
pub use laws::{law_of_opposites, laws_of_zero};
pub use money::{Money, UNIT};
pub use places::{round_to, trunc};
pub use printing::print;
pub use reading::{DECIMAL_POINT, NumberFault, read, read_with};
pub use steps::Steps;
pub use total::Sum;
pub use value::Value;

mod arithmetic;
mod division;
mod fixed_printing;
mod laws;
mod money;
mod places;
mod printing;
mod reading;
mod rounding;
mod steps;
mod total;
mod value;
