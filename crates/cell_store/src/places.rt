ghost use Rattle.std.specs.Prelude.{◌≡◌, ◌≤◌, length, take, drop};
ghost use Rattle.cell_store.specs.Inside.Order.{IsRising, below_by, at_least_by, up_to_by, above_by, first_from};

use crate::order::Placed;

/// How many items lie below the cell. They are the first ones.
pub fn count_below<T: Placed>(items: &[T], cell: u64) -> usize
    requires { IsRising T.cell items.now }
    ensures within { result ≤ length items.now }
    ensures front { take result items.now ≡ below_by T.cell items.now cell }
    ensures back { drop result items.now ≡ at_least_by T.cell items.now cell }
{
    items.partition_point(|item| item.cell() < cell)
}

/// How many items lie at or below the cell.
pub fn count_up_to<T: Placed>(items: &[T], cell: u64) -> usize
    requires { IsRising T.cell items.now }
    ensures within { result ≤ length items.now }
    ensures front { take result items.now ≡ up_to_by T.cell items.now cell }
    ensures back { drop result items.now ≡ above_by T.cell items.now cell }
{
    items.partition_point(|item| item.cell() <= cell)
}

/// The items at or above the cell.
pub fn at_least<T: Placed>(items: &[T], cell: u64) -> &[T]
    requires { IsRising T.cell items.now }
    ensures { result.now ≡ at_least_by T.cell items.now cell }
{
    &items[count_below(items, cell)..]
}

/// The items above the cell.
pub fn above<T: Placed>(items: &[T], cell: u64) -> &[T]
    requires { IsRising T.cell items.now }
    ensures { result.now ≡ above_by T.cell items.now cell }
{
    &items[count_up_to(items, cell)..]
}

/// The first item at or above the cell.
pub fn first_at_least<T: Placed + Copy>(items: &[T], cell: u64) -> Option<T>
    requires { IsRising T.cell items.now }
    ensures { result ≡ first_from T.cell items.now cell }
{
    at_least(items, cell).first().copied()
}
