ghost use Rattle.std.specs.Prelude.{◌≡◌, ◌<◌, ℕ, ◌⊎◌, Some, OnOk};
ghost use Rattle.std.specs.BTreeMap.{btree_map_len, get};
ghost use Rattle.std.specs.Ordering.{nat_cmp};
ghost use Rattle.cube_fixed.specs.declared.value.Value.{Value as AnyValue};
ghost use Rattle.memo_cells.specs.HeldValues.{StaysHeld, most_held};

use cube_fixed::Value;
use std::alloc::AllocError;
use std::collections::BTreeMap;

/// How many values a reader keeps for itself. Where there would be more, it begins again with none.
pub const MAX_HELD: usize = 1_048_576;

/// The value that a reader has kept of a cell for itself.
pub(crate) fn held_value(held: &BTreeMap<u64, Value>, cell: u64) -> Option<Value>
    ensures { result ≡ get nat_cmp held.now cell }
{
    match held.get(&cell) {
        Some(value) => Some(*value),
        None => None,
    }
}

/// Keeps a value of a cell among the values that a reader holds for itself.
pub(crate) fn hold(
    held: &mut BTreeMap<u64, Value>,
    cell: u64,
    value: &Value,
) -> Result<(), AllocError>
    ensures kept { OnOk result (get nat_cmp held.new cell ≡ Some value.now) }
    ensures others { (other : ℕ) (found : AnyValue) → get nat_cmp held.new other ≡ Some found
        → (get nat_cmp held.old other ≡ Some found) ⊎ ((other ≡ cell) × (found ≡ value.now)) }
    ensures stays { btree_map_len held.old < most_held → StaysHeld held.old held.new }
{
    make_room(held);
    held.insert(cell, *value)?;
    Ok(())
}

// Where the values are as many as may be, none stays.
fn make_room(held: &mut BTreeMap<u64, Value>)
    ensures others { (other : ℕ) (found : AnyValue) → get nat_cmp held.new other ≡ Some found
        → get nat_cmp held.old other ≡ Some found }
    ensures stays { btree_map_len held.old < most_held → held.new ≡ held.old }
{
    if held.len() >= MAX_HELD {
        held.clear();
    }
}
