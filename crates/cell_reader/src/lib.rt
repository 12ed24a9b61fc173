//! The numbers of a version, and reading them: what is stored, and the value of each cell by the rules.
//!
//! - [`Snapshot`] is a version with a memory for the values that its readers work out. [`Snapshot::first`] has nothing
//!   stored, [`Snapshot::next`] is the one after some writes, and [`Snapshot::share`] is the same for another reader.
//! - [`Snapshot::value_at`] is a cell's value, and [`Snapshot::read`] the same for who counts steps.
//! - [`Work`] is a version with the writes of a load so far, which sees its own writes: [`Work::get`], [`Work::put`].
//!   [`Work::stored_below`] and [`Work::clear`] serve what empties the cells below a total. [`Work::back`] takes writes
//!   back, quickly to where [`Work::mark`] marked them.
//! - [`why_closed`] says whether a cell may be written, and why not.
//!
//! Contracts speak of these by the words of `specs/Snapshots.antt`, `specs/Works.antt`, `specs/Limits.antt`,
//! `specs/StoredBelow.antt` and `specs/WritePermission.antt`.
#![tactic(auto)]

pub use cell_versions::NextFault;
pub use slots::{CELLS_PER_SLOT, MAX_SLOTS, MIN_SLOTS};
pub use snapshot::Snapshot;
pub use work::Work;
pub use write_permission::{Closed, why_closed};

mod last_numbers;
mod mark;
mod next_snapshot;
mod room;
mod slots;
mod snapshot;
mod snapshot_read;
mod sound;
mod stored_below;
mod uncounted;
mod ungoverned;
mod work;
mod work_marks;
mod work_values;
mod work_writes;
mod write_permission;
