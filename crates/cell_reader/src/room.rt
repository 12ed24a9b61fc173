ghost use Rattle.std.specs.Prelude.{◌≡◌, ◌≤◌, pos, [], ◌∷◌, ◌++◌, Some, IfSome};
ghost use Rattle.cell_reader.specs.Inside.After.{MayWait};

use crate::sound::is_sound;
use cell_store::MAX_CELLS;
use cell_versions::Version;
use cube_fixed::Money;
use feed_chains::count_led;
use feed_map::MAX_FED;

/// How many more cells writes that wait may add to a version.
#[derive(Clone, Copy)]
pub(crate) struct Room {
    /// How many more may be stored.
    pub(crate) stored: usize,
    /// How many more may be fed.
    pub(crate) fed: usize,
}

/// The room behind a write that waits with those that do; None where it may not wait. A written 0 always may: it takes
/// no room, and feeds nothing. Another write may where there is room for its cell, and for those to which chains of
/// feeds lead from it, or where there are few cells in all.
pub(crate) fn room_behind(
    version: &Version,
    waiting: &[(u64, Money)],
    room: Room,
    cell: u64,
    number: Money,
) -> Option<Room>
    requires { MayWait version.now waiting.now room }
    ensures waits { IfSome result (MayWait version.now (waiting.now ++ (cell, number) ∷ [])) }
    ensures less { IfSome result (λ left. (left.stored ≤ room.stored) × (left.fed ≤ room.fed)) }
    ensures zero { number ≡ pos 0 → result ≡ Some room }
{
    let size = version.model().space().size();
    if number.millionths() == 0 {
        return Some(room);
    }
    let stored = room.stored.checked_sub(1)?;
    if size <= MAX_FED as u64 {
        return Some(Room { stored, fed: 0 });
    }
    let led = count_led(version.accepted().sources(), cell)?;
    let fed = room.fed.checked_sub(led)?;
    Some(Room { stored, fed })
}

/// The room over a version behind which none waits.
pub(crate) fn room_of(version: &Version) -> Room
    ensures { MayWait version.now [] result }
{
    is_sound(version);
    Room {
        stored: MAX_CELLS - version.store().len() as usize,
        fed: MAX_FED - version.fed().count() as usize,
    }
}
