ghost use Rattle.std.specs.Prelude.{◌≡◌, ◌+◌, ◌<◌, ◌≤◌, false, Some, IfSome, IfOk, IfErr, OnOk, [], ◌∷◌};
ghost use Rattle.std.specs.Prelude.{length, map, take, drop};
ghost use Rattle.std.specs.Prelude.{slice_get, slice_index_or, Contains};
ghost use Rattle.dim_weights.specs.Table.{IsWeightsOf};
ghost use Rattle.cube_space.specs.Layout.{axes, axes_of, dims_of, most_dimensions};
ghost use Rattle.cube_space.specs.Cells.{IsCell, cube_of, elements_of, is_leaf_cell, cell_number};
ghost use Rattle.rule_laws.specs.Feeding.{leaves_of};
ghost use Rattle.rule_model.specs.System.{system_of};
ghost use Rattle.feed_map.specs.Inside.Gains.{Gains, StopsBy};
ghost use Rattle.feed_map.specs.Inside.Follows.{AreOpened};
ghost use Rattle.feed_map.specs.Inside.Leaves.{candidates, candidate, leaf_at, own_leaves};
ghost use Rattle.feed_map.specs.Inside.Leaves.{axes_from, AreRoots, IsRoot, IsBelow, IsBelowBy, IsRow, IsInRow};

use crate::fault::FedFault;
use crate::growth::Growth;
use crate::reached::Reached;
use cell_store::CellSet;
use cube_space::{MAX_DIMENSIONS, Space};
use dim_core::Dimension;
use dim_weights::Weights;
use lists::ListOf;
use rule_model::{Model, place_of};
use std::alloc::{AllocError, Global};

/// Finds the leaf cells that a cell means: itself, or those below it. A total that was opened isn't opened again.
pub fn add_leaves_of(model: &Model, cell: u64, reached: &mut Reached) -> Result<(), FedFault>
    requires cell { IsCell model.now.space cell }
    requires totals { AreOpened model.now reached.old.totals reached.old.growth }
    ensures gains { OnOk result (Gains (Contains (leaves_of (system_of model.now) cell))
        reached.old.growth reached.new.growth) }
    ensures stops { IfErr result (StopsBy (Contains (leaves_of (system_of model.now) cell))
        reached.old.growth reached.new.growth) }
    ensures totals { OnOk result (AreOpened model.now reached.new.totals reached.new.growth) }
{
    if model.space().is_leaf(cell) {
        return reached.growth.add(cell);
    }
    if reached.totals.has(cell) {
        return Ok(());
    }
    let mut roots = [0u32; MAX_DIMENSIONS];
    let (cube, len) = place_of(model, cell, &mut roots);
    let before = reached.growth.finds;
    add_below(model, cell, cube, &roots[..len], &mut reached.growth)?;
    let leaves = reached.growth.finds.saturating_sub(before);
    reached.keep(cell, leaves)?;
    Ok(())
}

// Finds the leaf cells below a consolidated cell of these elements.
fn add_below(
    model: &Model,
    cell: u64,
    cube: u32,
    elements: &[u32],
    growth: &mut Growth,
) -> Result<(), FedFault>
    requires cell { IsCell model.now.space cell }
    requires total { is_leaf_cell model.now.space cell ≡ false }
    requires cube { cube ≡ cube_of model.now.space cell }
    requires elements { elements.now ≡ elements_of model.now.space cell }
    ensures gains { OnOk result (Gains (Contains (leaves_of (system_of model.now) cell)) growth.old growth.new) }
    ensures stops { IfErr result (StopsBy (Contains (leaves_of (system_of model.now) cell)) growth.old growth.new) }
{
    let mut at = [0u32; MAX_DIMENSIONS];
    let below = Below {
        model,
        cube,
        roots: elements,
        leaves: &[],
    };
    add_product(below, 0, &mut at, growth)
}

/// Which leaf cells of a cube are looked for: those whose elements count in the roots. A dimension behind the last root
/// has none, and then each of its leaves counts.
#[derive(Clone, Copy)]
pub struct Below<'a> {
    pub model: &'a Model,
    pub cube: u32,
    pub roots: &'a [u32],
    /// The leaves of each dimension, where there is one without a root.
    pub leaves: &'a [ListOf<u32>],
}

/// Finds the cells whose elements are, up to a place, those of `at`, and from there on leaves that count in the roots.
#[cycle(add_product)]
pub fn add_product(
    below: Below,
    place: usize,
    at: &mut [u32; MAX_DIMENSIONS],
    growth: &mut Growth,
) -> Result<(), FedFault>
    requires cube { below.cube < length below.model.now.space.cubes }
    requires place { place ≤ length (dims_of below.model.now.space below.cube) }
    requires roots { AreRoots below.roots.now below.leaves.now place
        (axes_from below.model.now.space below.cube place) }
    ensures gains { OnOk result (Gains (IsBelow below.entry place (take place at.old)) growth.old growth.new) }
    ensures stops { IfErr result (StopsBy (IsBelow below.entry place (take place at.old)) growth.old growth.new) }
    ensures front { take place at.new ≡ take place at.old }
{
    if place == rank_of(below.model, below.cube) {
        return add_number(below.model.space(), below.cube, &at[..place], growth);
    }
    let (dimension, weights) = axis_of(below.model, below.cube, place);
    let root = root_of(below.roots, place);
    let leaves = leaves_at(below.leaves, place);
    let row = row_at(below.model, below.cube, place, at);
    'each: for choice in 0..candidates(dimension, weights, leaves, root) {
        let leaf = leaf_at(dimension, weights, leaves, root, choice);
        add_choice(below, place, leaf, row, at, growth)?;
    }
    Ok(())
}

// The same where the element at the place is this leaf: none where there is no leaf. The number of a row's first cell
// tells the cell.
#[cycle(add_product)]
fn add_choice(
    below: Below,
    place: usize,
    leaf: Option<u32>,
    row: Option<u64>,
    at: &mut [u32; MAX_DIMENSIONS],
    growth: &mut Growth,
) -> Result<(), FedFault>
    requires cube { below.cube < length below.model.now.space.cubes }
    requires place { place < length (dims_of below.model.now.space below.cube) }
    requires roots { AreRoots below.roots.now below.leaves.now (place + 1)
        (axes_from below.model.now.space below.cube (place + 1)) }
    requires row { IfSome row (λ first. IfSome leaf
        (IsInRow below.model.now.space below.cube place (take place at.old) first)) }
    ensures gains { OnOk result (Gains (IsBelowBy below.entry place (take place at.old) leaf) growth.old growth.new) }
    ensures stops { IfErr result (StopsBy (IsBelowBy below.entry place (take place at.old) leaf)
        growth.old growth.new) }
    ensures front { take place at.new ≡ take place at.old }
{
    let Some(leaf) = leaf else {
        return Ok(());
    };
    if let Some(first) = row {
        return growth.add(first + u64::from(leaf));
    }
    // a cube has no more dimensions than there are places
    let _rank = rank_of(below.model, below.cube);
    at[place] = leaf;
    add_product(below, place + 1, at, growth)
}

// Where the place is the last one, the number of the first cell of the row of these elements: each other cell of it is
// as far behind as its last element says.
fn row_at(model: &Model, cube: u32, place: usize, at: &mut [u32; MAX_DIMENSIONS]) -> Option<u64>
    requires cube { cube < length model.now.space.cubes }
    requires place { place < length (dims_of model.now.space cube) }
    ensures row { IfSome result (IsRow model.now.space cube place (take place at.old)) }
    ensures front { take place at.new ≡ take place at.old }
{
    let space = model.space();
    let rank = rank_of(model, cube);
    if place + 1 < rank {
        return None;
    }
    // a space says of itself how many cells there are at most
    let _size = space.size();
    at[place] = 0;
    space.number(cube, &at[..place + 1])
}

// How many dimensions a cube has.
fn rank_of(model: &Model, cube: u32) -> usize
    requires { cube < length model.now.space.cubes }
    ensures rank { result ≡ length (dims_of model.now.space cube) }
    ensures few { length (dims_of model.now.space cube) ≤ most_dimensions }
{
    let space = model.space();
    space.shape(cube).dims.as_slice().len()
}

// The dimension of a cube at a place, and its coefficients.
fn axis_of(model: &Model, cube: u32, place: usize) -> (&Dimension, &Weights)
    requires cube { cube < length model.now.space.cubes }
    requires place { place < length (dims_of model.now.space cube) }
    ensures axis { axes_of model.now.space.dimensions (drop place (dims_of model.now.space cube))
        ≡ result.0.now ∷ axes_of model.now.space.dimensions (drop (place + 1) (dims_of model.now.space cube)) }
    ensures weights { IsWeightsOf result.0.now result.1.now }
{
    let space = model.space();
    let dim = space.shape(cube).dims.as_slice()[place];
    (space.dimension(dim), &model.weights()[dim as usize])
}

// The element at a place, if there is one.
fn root_of(roots: &[u32], place: usize) -> Option<u32>
    ensures { result ≡ slice_get roots.now place }
{
    roots.get(place).copied()
}

// Finds the cell of a cube with these elements, where there is one.
fn add_number(
    space: &Space,
    cube: u32,
    elements: &[u32],
    growth: &mut Growth,
) -> Result<(), FedFault>
    ensures gains { OnOk result (Gains (λ cell. cell_number space.now cube elements.now ≡ Some cell)
        growth.old growth.new) }
    ensures stops { IfErr result (StopsBy (λ cell. cell_number space.now cube elements.now ≡ Some cell)
        growth.old growth.new) }
{
    match space.number(cube, elements) {
        Some(cell) => growth.add(cell),
        None => Ok(()),
    }
}

// The leaves at a place; none where there are none.
fn leaves_at(leaves: &[ListOf<u32>], place: usize) -> &[u32]
    ensures { result.now ≡ slice_index_or leaves.now place [] }
{
    match leaves.get(place) {
        Some(leaves) => leaves.as_slice(),
        None => &[],
    }
}

// How many elements there are to choose leaves from: those that count in the root, or these leaves.
fn candidates(dimension: &Dimension, weights: &Weights, leaves: &[u32], root: Option<u32>) -> usize
    requires weights { IsWeightsOf dimension.now weights.now }
    requires root { IsRoot dimension.now root leaves.now }
    ensures { result ≡ candidates dimension.now root }
{
    match root {
        Some(element) => weights.leaves(element).len(),
        None => leaves.len(),
    }
}

// The leaf at a place among them.
fn leaf_at(
    dimension: &Dimension,
    weights: &Weights,
    leaves: &[u32],
    root: Option<u32>,
    place: usize,
) -> Option<u32>
    requires weights { IsWeightsOf dimension.now weights.now }
    requires root { IsRoot dimension.now root leaves.now }
    requires place { place < candidates dimension.now root }
    ensures leaf { result ≡ leaf_at dimension.now root place }
    ensures within { IfSome result (λ leaf. leaf < length dimension.now.elements) }
{
    let leaf = candidate(dimension, weights, leaves, root, place);
    if dimension.is_leaf(leaf) {
        Some(leaf)
    } else {
        None
    }
}

// The element at a place among them.
fn candidate(
    dimension: &Dimension,
    weights: &Weights,
    leaves: &[u32],
    root: Option<u32>,
    place: usize,
) -> u32
    requires weights { IsWeightsOf dimension.now weights.now }
    requires root { IsRoot dimension.now root leaves.now }
    requires place { place < candidates dimension.now root }
    ensures element { candidate dimension.now root place ≡ Some result }
    ensures within { result < length dimension.now.elements }
{
    match root {
        Some(element) => weights.leaves(element)[place].0,
        None => leaves[place],
    }
}

/// The leaves of each dimension of a cube.
pub fn leaves_of_cube(
    alloc: Global,
    model: &Model,
    cube: u32,
) -> Result<Vec<ListOf<u32>>, AllocError>
    requires { cube < length model.now.space.cubes }
    ensures { IfOk result (λ leaves. leaves.items ≡ map own_leaves (axes model.now.space cube)) }
{
    let mut leaves = Vec::new(alloc);
    'each: for place in 0..rank_of(model, cube) {
        let (dimension, _) = axis_of(model, cube, place);
        leaves.push(leaves_of_dimension(alloc, dimension)?)?;
    }
    Ok(leaves)
}

fn leaves_of_dimension(alloc: Global, dimension: &Dimension) -> Result<ListOf<u32>, AllocError>
    ensures { IfOk result (λ leaves. leaves ≡ own_leaves dimension.now) }
{
    let mut leaves = Vec::new(alloc);
    'each: for element in 0..dimension.len() {
        if dimension.is_leaf(element) {
            leaves.push(element)?;
        }
    }
    Ok(ListOf::new(leaves))
}
