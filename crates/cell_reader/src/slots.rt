ghost use Rattle.std.specs.Prelude.{◌≡◌, ◌/◌, ◌<◌, ◌≤◌, ◌⊎◌, min};
ghost use Rattle.std.specs.Int.{IsPowerOfTwo};
ghost use Rattle.cell_reader.specs.Slots.{cells_per_slot, max_slots, min_slots};

/// The fewest slots of a version. Each keeps the value of one cell.
pub const MIN_SLOTS: u64 = 4_096;

/// The most slots of a version.
pub const MAX_SLOTS: u64 = 262_144;

/// Between these bounds a version has a slot for so many cells of its model, but no more slots than it has writes: each
/// commit makes a new memory, and it is to take no longer for that than for its writes.
pub const CELLS_PER_SLOT: u64 = 256;

/// Into how many slots the cells of a version fall, whose model has so many cells and which is made of so many writes:
/// the least power of two within the bounds that is no less than the writes and the cells give.
pub(crate) fn slots_for(cells: u64, writes: usize) -> u32
    ensures power { IsPowerOfTwo result }
    ensures least { min_slots ≤ result }
    ensures most { result ≤ max_slots }
    ensures enough { (min (cells / cells_per_slot) writes ≤ result) ⊎ (result ≡ max_slots) }
    ensures few { (result ≡ min_slots) ⊎ (result / 2 < min (cells / cells_per_slot) writes) }
{
    let wanted = (cells / CELLS_PER_SLOT).min(writes as u64);
    let slots = wanted.clamp(MIN_SLOTS, MAX_SLOTS);
    slots.next_power_of_two() as u32
}
