ghost use Rattle.std.specs.Prelude.{◌≡◌, ℕ, ℤ, List, [], ◌∷◌, ◌++◌, is_some, IfOk};
ghost use Rattle.cell_store.specs.Entries.{after_writes, number_at};
ghost use Rattle.cell_writes.specs.Writes.{last_writes};
ghost use Rattle.cell_reader.specs.Inside.After.{AreLast};

use cell_store::Store;
use cube_fixed::Money;
use std::alloc::{AllocError, Global};
use std::collections::BTreeMap;

/// The last number that these writes have for each of their cells: as kept, or else found in them.
pub(crate) fn last_numbers(
    alloc: Global,
    kept: Option<BTreeMap<u64, Money>>,
    writes: &[(u64, Money)],
) -> Result<BTreeMap<u64, Money>, AllocError>
    requires { AreLast writes.now kept }
    ensures { IfOk result (λ numbers. numbers.entries ≡ last_writes writes.now) }
{
    match kept {
        Some(numbers) => Ok(numbers),
        None => found_numbers(alloc, writes),
    }
}

// The same, found in the writes.
fn found_numbers(alloc: Global, writes: &[(u64, Money)]) -> Result<BTreeMap<u64, Money>, AllocError>
    ensures { IfOk result (λ numbers. numbers.entries ≡ last_writes writes.now) }
{
    let mut numbers = BTreeMap::new(alloc);
    'writes: for write in writes {
        numbers.insert(write.0, write.1)?;
    }
    Ok(numbers)
}

/// The last numbers after one write more, where they are kept.
pub(crate) fn with_write(
    kept: Option<BTreeMap<u64, Money>>,
    cell: u64,
    number: Money,
) -> Result<Option<BTreeMap<u64, Money>>, AllocError>
    ensures last { IfOk result (λ after. (writes : List (ℕ × ℤ)) → AreLast writes kept
        → AreLast (writes ++ (cell, number) ∷ []) after) }
    ensures kept { IfOk result (λ after. is_some after ≡ is_some kept) }
{
    match kept {
        Some(mut numbers) => {
            numbers.insert(cell, number)?;
            Ok(Some(numbers))
        }
        None => Ok(None),
    }
}

/// The number of a cell in a store after writes that have these last numbers.
pub(crate) fn number_after(store: &Store, numbers: &BTreeMap<u64, Money>, cell: u64) -> Money
    ensures { (writes : List (ℕ × ℤ)) → numbers.now.entries ≡ last_writes writes
        → result ≡ number_at (after_writes store.now writes) cell }
{
    match numbers.get(&cell) {
        Some(number) => *number,
        None => store.get(cell),
    }
}
