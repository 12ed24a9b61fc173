//! What the statements of a model read at the same lag: the sources of its arrows.
//!
//! A source is what a part of a statement reads where that may have the same lag as its cell, and never a greater one.
//! [`sources_of`] gathers them, or finds the first reference that may read at a greater lag; `specs/Sources.antt` says
//! what they are. `specs/Ways.antt` says how the node that a source reads follows from its node.
#![tactic(auto)]

mod alike;
mod fault;
mod follows;
mod given;
mod group;
mod mark;
mod part;
mod parting;
mod reading;
mod reads;
mod same_arrows;
mod seek;
mod source;
mod sources;
mod tables;
mod ways;

pub use fault::ReadFault;
pub use follows::Way;
pub use given::{admits, suits};
pub use group::Group;
pub use parting::{Parted, part_sources};
pub use reading::{gives_total, reads_from, serves_any, serves_with, set_of};
pub use source::{Given, Source};
pub use sources::sources_of;
pub use tables::{has_kinds, is_nonzero, is_total, last_of};
pub use ways::{cube_read, way};
