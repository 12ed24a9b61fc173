ghost use Rattle.std.specs.Prelude.{◌≡◌, ◌<◌, None, length, slice_get, slice_index_or, option_and_then, All, IfOk};
ghost use Rattle.std.specs.Prelude.{IsTrue};
ghost use Rattle.cube_space.specs.Layout.{axes, sizes};
ghost use Rattle.rule_model.specs.Conditions.{IsArea, IsSet};
ghost use Rattle.feed_turn.specs.Leaves.{set_leaves, over};
ghost use Rattle.feed_turn.specs.Turning.{area_leaves, area_over};
ghost use Rattle.feed_turn.specs.Known.{AreOvers};

use crate::axes::weights;
use crate::leaves::{all_leaves, leaves_among};
use crate::over::over_leaves;
use cube_space::axis;
use dim_core::Dimension;
use lists::ListOf;
use rule_model::{Area, Model};
use std::alloc::{AllocError, Global};

/// The leaves that an area of a cube has in the dimension at a place.
pub fn area_leaves(
    alloc: Global,
    model: &Model,
    cube: u32,
    area: &Area,
    place: u32,
) -> Result<Vec<u32>, AllocError>
    requires cube { cube < length model.now.space.cubes }
    requires place { place < length (axes model.now.space cube) }
    requires area { IsArea model.now.space cube area.now }
    ensures { IfOk result (λ leaves. leaves.items ≡ area_leaves model.now.space cube area.now place) }
{
    let dimension = axis(model.space(), cube, place);
    set_leaves(alloc, dimension, &area.sets.as_slice()[place as usize])
}

// The leaves among the elements that a set of an area has in its dimension.
fn set_leaves(
    alloc: Global,
    dimension: &Dimension,
    set: &Option<ListOf<u32>>,
) -> Result<Vec<u32>, AllocError>
    requires { IsSet (length dimension.now.elements) set.now }
    ensures { IfOk result (λ leaves. leaves.items ≡ set_leaves dimension.now set.now) }
{
    match set {
        Some(listed) => leaves_among(alloc, dimension, listed.as_slice()),
        None => all_leaves(alloc, dimension),
    }
}

/// The element over the leaves that an area of a cube has in the dimension at a place. Where the area has all elements,
/// it isn't worked out again.
pub fn area_over(
    alloc: Global,
    model: &Model,
    cube: u32,
    area: &Area,
    place: u32,
    overs: &mut [Option<Option<u32>>],
) -> Result<Option<u32>, AllocError>
    requires cube { cube < length model.now.space.cubes }
    requires place { place < length (axes model.now.space cube) }
    requires area { IsArea model.now.space cube area.now }
    requires overs { AreOvers model.now cube overs.old }
    ensures over { IfOk result (λ found. found ≡ area_over model.now.space cube area.now place) }
    ensures overs { AreOvers model.now cube overs.new }
{
    if !has_all(model, cube, area, place) {
        return worked_over(alloc, model, cube, area, place);
    }
    if let Some(known) = overs[place as usize] {
        return Ok(known);
    }
    let over = worked_over(alloc, model, cube, area, place)?;
    overs[place as usize] = Some(over);
    Ok(over)
}

/// Whether an area of a cube has all elements of the dimension at a place.
pub fn has_all(model: &Model, cube: u32, area: &Area, place: u32) -> bool
    requires place { place < length (axes model.now.space cube) }
    requires area { IsArea model.now.space cube area.now }
    ensures { IsTrue result → slice_index_or area.now.sets place None ≡ None }
{
    let _space = model.space();
    area.sets.as_slice()[place as usize].is_none()
}

// The same as `area_over`, worked out.
fn worked_over(
    alloc: Global,
    model: &Model,
    cube: u32,
    area: &Area,
    place: u32,
) -> Result<Option<u32>, AllocError>
    requires cube { cube < length model.now.space.cubes }
    requires place { place < length (axes model.now.space cube) }
    requires area { IsArea model.now.space cube area.now }
    ensures { IfOk result (λ found. found ≡ area_over model.now.space cube area.now place) }
{
    let leaves = area_leaves(alloc, model, cube, area, place)?;
    Ok(over_of(model, cube, place, &leaves))
}

// The element over these leaves of the dimension of a cube at a place.
fn over_of(model: &Model, cube: u32, place: u32, leaves: &[u32]) -> Option<u32>
    requires cube { cube < length model.now.space.cubes }
    requires place { place < length (axes model.now.space cube) }
    requires leaves { All (λ leaf. leaf < slice_index_or (sizes model.now.space cube) place 0) leaves.now }
    ensures { result ≡ option_and_then (λ d. over d leaves.now) (slice_get (axes model.now.space cube) place) }
{
    let dimension = axis(model.space(), cube, place);
    over_leaves(dimension, weights(model, cube, place), leaves)
}
