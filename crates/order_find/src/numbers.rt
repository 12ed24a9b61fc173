ghost use Rattle.std.specs.Prelude.{◌≡◌, ◌<◌, ◌≤◌, ◌++◌, IfOk, OnOk, length, slice_index_or};
ghost use Rattle.order_find.specs.Numbers.{AreNumbered, IsNumbering, count_of, firsts_of, width_of, places_of};
ghost use Rattle.order_find.specs.Numbers.{most_places};

use crate::numbering::{Numbering, Place};
use read_sources::{has_kinds, last_of};
use ref_order::axis;
use rule_model::Model;
use std::alloc::{AllocError, Global};

// As many nodes as a model may have: more have no room in a graph.
const MOST_PLACES: usize = 1 << 28;

/// The numbers of the nodes of a model. More than 2^28 of them count as out of memory.
pub fn number_nodes(alloc: Global, model: &Model) -> Result<Numbering, AllocError>
    ensures numbering { IfOk result (IsNumbering model.now) }
    ensures few { IfOk result (λ numbering. count_of numbering ≤ most_places) }
{
    let mut places = Vec::new(alloc);
    let firsts = number_kind(alloc, model, true, &mut places)?;
    let totals = number_kind(alloc, model, false, &mut places)?;
    Ok(Numbering {
        firsts,
        totals,
        places,
    })
}

/// The number of a cube's first node of a kind.
pub fn first_of(numbering: &Numbering, cube: u32, kind: bool) -> u32
    requires firsts { cube < length numbering.now.firsts.items }
    requires totals { cube < length numbering.now.totals.items }
    ensures { result ≡ slice_index_or (firsts_of numbering.now kind) cube 0 }
{
    if kind {
        numbering.firsts[cube as usize]
    } else {
        numbering.totals[cube as usize]
    }
}

// Numbers the nodes of a kind. Of each cube the number of the first.
fn number_kind(
    alloc: Global,
    model: &Model,
    kind: bool,
    places: &mut Vec<Place>,
) -> Result<Vec<u32>, AllocError>
    requires few { length places.old.items ≤ most_places }
    ensures numbered { IfOk result (λ firsts. AreNumbered model.now kind places.old.items
        (length model.now.space.cubes) firsts.items places.new.items) }
    ensures few { OnOk result (length places.new.items ≤ most_places) }
{
    let cubes = model.space().cubes();
    let mut firsts = Vec::with_capacity(alloc, cubes as usize)?;
    'each: for cube in 0..cubes {
        firsts.push(places.len() as u32)?;
        add_places(places, cube, kind, width_of(model, kind, cube))?;
    }
    Ok(firsts)
}

// How many nodes of a kind a cube has.
fn width_of(model: &Model, kind: bool, cube: u32) -> u32
    requires { cube < length model.now.space.cubes }
    ensures { result ≡ width_of model.now kind cube }
{
    if kind || has_kinds(model, cube) {
        axis(model, cube, last_of(model, cube)).len()
    } else {
        0
    }
}

// Adds the nodes of a kind of so many elements of a cube's last dimension.
fn add_places(places: &mut Vec<Place>, cube: u32, kind: bool, width: u32) -> Result<(), AllocError>
    requires few { length places.old.items ≤ most_places }
    ensures places { OnOk result (places.new.items ≡ places.old.items ++ places_of cube kind width) }
    ensures few { OnOk result (length places.new.items ≤ most_places) }
{
    if places.len() + width as usize > MOST_PLACES {
        return Err(AllocError);
    }
    'each: for element in 0..width {
        places.push(Place {
            cube,
            element,
            kind,
        })?;
    }
    Ok(())
}
