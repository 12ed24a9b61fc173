//! Whether what a formula reads stands before its cells in the declared order, decided dimension by dimension over the
//! tables of a model. The cost is that of the area's elements, and not of its cells.
//!
//! [`is_earlier`] decides it for one [`Read`] of one part of a statement, by [`most_excess`] at each position. That its
//! answer is right for every cell of the area is the law of `order_laws`. What it has found of the elements of a
//! dimension is [`Known`] to the references that follow: a table serves where a map of the same elements was gone over
//! before, so that a reference costs what is new in it. That alone takes memory, and the answers don't rest on it.
//!
//! A cube may have an order of its own for consolidated cells. So a walk over the elements of a dimension finds four
//! numbers at once: of leaves and of consolidated elements, where leaves alone are named from them and where not. Where
//! a cube has one order, its numbers serve for both kinds of cells.
#![tactic(auto)]

pub use area_cells::AreaCells;
pub use earlier::is_earlier;
pub use excess::names_leaves;
pub use greatest::{count, element_at, greatest_known};
pub use kinds::{ByKinds, Numbers};
pub use known::Known;
pub use most::most_excess;
pub use number::{is_below, is_within};
pub use question::Question;
pub use reads::Read;
pub use scale::{MAX_POSITIONS, axis, axis_count, weights};

mod alike;
mod area_cells;
mod earlier;
mod excess;
mod greatest;
mod kinds;
mod known;
mod marks;
mod most;
mod named;
mod number;
mod question;
mod reads;
mod scale;
