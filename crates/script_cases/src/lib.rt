//! Cases of load scripts over cells that a case lists. The lines of a case:
//!
//! ```text
//! leaf Plan,Jan,Units 5                a leaf cell that is open for input, and what it has
//! total Plan,Q1,Units 5                a consolidated cell
//! ruled Plan,Jan,Sales #OVER           a leaf cell that a rule governs, and what it has
//! dimension Month Jan Feb +Q1          a dimension and its elements; those behind a + are consolidated
//! attribute Month,Jan,Days 31          an element's text of an attribute
//! stored 2                             how many writes may be stored
//! fed 1                                how many may be fed
//! number X 5                           a parameter
//! text T a b                           a parameter
//! row Jan,Units,10                     a record of columns
//! row                                  a record without columns
//! separator ;                          the byte between columns of the rows
//! decimal ,                            the byte between units and decimals of their numbers
//! rejects 2                            how many records may be passed over
//! |Data: CellPutN(V3, 'Plan', V1, V2); a line of the script
//! ```
//!
//! What is printed of a case is how the load ends, the records that it passed over, and what it wrote.
#![tactic(auto)]

mod cases;
mod elements;
mod listed;
mod memory;
mod names;
mod scene;

pub use cases::answer_load;
