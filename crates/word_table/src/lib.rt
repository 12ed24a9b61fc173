//! Words that a text chooses, in the order in which they came: [`WordTable`] finds the first place of each by its
//! bytes. It keeps them in std's `BTreeMap`, so no words that a text chooses make it slow.
#![tactic(auto)]

mod table;

pub use table::WordTable;
