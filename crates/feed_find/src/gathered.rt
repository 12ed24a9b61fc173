ghost use Rattle.std.specs.Prelude.{◌≡◌, ◌++◌, ◌∷◌, [], List, map, All, OnOk};
ghost use Rattle.feed_find.specs.Found.{Picked};
ghost use Rattle.feed_find.specs.Added.{IsFound};
ghost use Rattle.feed_find.specs.Views.{IsChosen, AreGathered, as_picked};

use crate::chosen::Chosen;
use crate::found_table::FoundTable;
use crate::unturned::Unturned;
use cube_space::Space;
use lists::ListOf;
use std::alloc::AllocError;

/// What was gathered so far.
#[derive(Drop)]
pub struct Gathered {
    pub feeders: FoundTable,
    pub unturned: Vec<Unturned>,
}

// Adds what is chosen by a statement of a cube.
fn add_chosen(
    space: &Space,
    gathered: &mut Gathered,
    cube: u32,
    statement: u32,
    chosen: Chosen,
) -> Result<(), AllocError>
    requires feeders { All (IsFound space.now) gathered.old.feeders }
    requires chosen { IsChosen space.now chosen }
    ensures added { OnOk result ((picked : List Picked) → AreGathered picked gathered.old
        → AreGathered (picked ++ as_picked cube statement chosen ∷ []) gathered.new) }
    ensures valid { OnOk result (All (IsFound space.now) gathered.new.feeders) }
{
    match chosen {
        Chosen::Found(feeder) => gathered.feeders.insert(space, feeder),
        Chosen::Unturned(reference) => {
            gathered.unturned.push(Unturned {
                cube,
                statement,
                reference,
            })?;
            Ok(())
        }
    }
}

/// Adds all that is chosen by a statement of a cube.
pub fn add_all(
    space: &Space,
    gathered: &mut Gathered,
    cube: u32,
    statement: u32,
    chosen: ListOf<Chosen>,
) -> Result<(), AllocError>
    requires feeders { All (IsFound space.now) gathered.old.feeders }
    requires chosen { All (IsChosen space.now) chosen }
    ensures added { OnOk result ((picked : List Picked) → AreGathered picked gathered.old
        → AreGathered (picked ++ map (as_picked cube statement) chosen) gathered.new) }
    ensures valid { OnOk result (All (IsFound space.now) gathered.new.feeders) }
{
    for one in chosen.into_vec() {
        add_chosen(space, gathered, cube, statement, one)?;
    }
    Ok(())
}
