//! How far chains of feeds lead: [`count_led`] is at most how many leaf cells they lead to from a cell.
#![tactic(auto)]

pub use led::count_led;

mod led;
