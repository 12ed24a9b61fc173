//! Laws of load scripts.
//!
//! [`a_while_is_a_test_and_then_the_while_again`] says what a `WHILE` is without any count of its turns,
//! [`what_each_write_keeps_a_load_keeps`] that a load changes the writes by the writes alone that its cells allow,
//! [`a_record_that_is_passed_over_leaves_nothing`] and [`no_more_records_are_passed_over`] what `REJECTS` allows.
#![tactic(auto)]

mod laws;

pub use laws::{
    a_record_that_is_passed_over_leaves_nothing, a_while_is_a_test_and_then_the_while_again,
    no_more_records_are_passed_over, what_each_write_keeps_a_load_keeps,
};
